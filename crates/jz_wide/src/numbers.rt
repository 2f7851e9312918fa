//! Sums of numbers that are added and taken away, beside other numbers.

ghost use Rattle.std.specs.Prelude.{◌≡◌, ◌≤◌, ◌<◌, ◌+◌, ◌^◌, pos, ◌+ℤ◌, int_le};
ghost use Rattle.x64_insn.specs.Sizes.{bytes_of};
ghost use Rattle.jz_wide.specs.Values.{value};
ghost use Rattle.jz_wide.specs.Sums.{shown, AreFew};

use crate::wide::Wide;
use x64_insn::Size;

/// What numbers that are added make, and what those make that are taken away.
#[derive(Clone, Copy)]
pub struct Numbers {
    pub added: Wide,
    pub taken: Wide,
}

impl Numbers {
    /// The same with the bytes of a size.
    pub fn with_size(self, size: Size) -> Numbers
        requires { AreFew self }
        ensures more { shown result ≡ pos (bytes_of size) +ℤ shown self }
        ensures taken { result.taken ≡ self.taken }
    {
        Numbers {
            added: self.added.plus(Wide::of(size.bytes() as u128)),
            taken: self.taken,
        }
    }

    /// Whether it is 0 or more beside this number.
    pub fn is_from_zero(self, lo: Wide) -> bool
        ensures { result ≡ int_le (pos 0) (pos (value lo) +ℤ shown self) }
    {
        if self.taken.is_at_most(self.added) {
            return true;
        }
        self.taken.minus(self.added).is_at_most(lo)
    }

    /// Whether it is no more than `end` beside this number.
    pub fn is_to(self, hi: Wide, end: u128) -> bool
        requires { value self.taken ≤ 2 ^ 191 }
        ensures { result ≡ int_le (pos (value hi) +ℤ shown self) (pos end) }
    {
        let room = self.taken.plus(Wide::of(end));
        if self.added.is_at_most(room) {
            return hi.is_at_most(room.minus(self.added));
        }
        false
    }
}
