//! Constants in order, and the nearest of them to a number.

ghost use Rattle.std.specs.Prelude.{◌≡◌, ℕ, nat_le};
ghost use Rattle.jz_intervals.specs.Constants.{greatest, least, is_among};

use crate::interval::lower;
use jz_data::Seq;
use std::marker::Model;

/// Numbers in order. Contracts see the list of them.
#[derive(Drop)]
pub struct Constants {
    sorted: Seq<u64>,
}

impl Model for Constants {
    ghost use Rattle.std.specs.Prelude.{List, ℕ};
    ghost use Rattle.std.specs.List.Sorted.{IsNonDecreasing};

    ghost Value = { List ℕ };

    ghost view = { λ it. it.sorted };

    ghost invariant = { λ it. IsNonDecreasing it.sorted };
}

impl Constants {
    /// The same numbers in order.
    pub fn in_order(numbers: Vec<u64>) -> Constants
        ensures { (c : ℕ) → is_among c result ≡ is_among c numbers.items }
    {
        let mut sorted = numbers;
        sorted.sort_unstable();
        Constants {
            sorted: Seq::from_vec(sorted),
        }
    }

    /// The greatest of the constants that is not above `n`; where there is none, 0.
    pub fn greatest_to(&self, n: u64) -> u64
        ensures { result ≡ greatest (λ c. nat_le c n) self.now }
    {
        let constants = self.sorted.as_slice();
        match constants.binary_search(&n) {
            Ok(_) => n,
            Err(index) => {
                if index == 0 {
                    return 0;
                }
                constants[index - 1]
            }
        }
    }

    /// The least of `most` and the constants that are not below `n`.
    pub fn least_from(&self, n: u64, most: u64) -> u64
        ensures { result ≡ least (λ c. nat_le n c) most self.now }
    {
        let constants = self.sorted.as_slice();
        match constants.binary_search(&n) {
            Ok(_) => lower(n, most),
            Err(index) => {
                if index >= constants.len() {
                    return most;
                }
                lower(constants[index], most)
            }
        }
    }
}
