//! The immediate of an inline operand.

ghost use Rattle.std.specs.Prelude.{◌≡◌, ◌≤◌, IfSome, IsSome};
ghost use Rattle.jz_words.specs.Sizes.{bits_of};
ghost use Rattle.jz_words.specs.Words.{residue as residue_of};
ghost use Rattle.jz_select.specs.Immediates.{if_short, immediate_of};

use jz_words::{Size, fits_four_bytes, reading};

/// The number, where 32 bits with a sign hold it.
fn if_short(number: i128) -> Option<i32>
    ensures { result ≡ if_short number }
{
    if fits_four_bytes(number) {
        Some(number as i32)
    } else {
        None
    }
}

/// What a caller of `select` gives an instruction of that size for an inline operand of this value:
/// the word that the value stands for, as a signed number. None where 64 bits would need more than
/// 32 with a sign (Intel SDM vol. 2: the immediates of instructions of 64 bits are sign-extended
/// from 32).
#[tactic(auto, using(crate::proofs::Readings::same_word, crate::proofs::Readings::has_one))]
pub fn immediate(size: Size, number: i128) -> Option<i32>
    ensures value { result ≡ immediate_of size number }
    ensures word { IfSome result (λ k. residue_of size k ≡ residue_of size number) }
    ensures some { bits_of size ≤ 32 → IsSome result }
{
    if_short(reading(size, number))
}
