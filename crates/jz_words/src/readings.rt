//! Signed numbers: the one that a word is read as, and which an immediate holds.

ghost use Rattle.std.specs.Prelude.{◌≡◌, ◌-◌, ◌^◌, ◌≤ℤ◌, ◌<ℤ◌, pos, negsuc};
ghost use Rattle.jz_words.specs.Readings.{fits_bytes, reading_of};

use crate::operations::residue;
use crate::size::Size;

/// The signed reading of the word that a number stands for.
pub fn reading(size: Size, number: i128) -> i128
    ensures value { result ≡ reading_of size number }
    ensures low { negsuc (2 ^ 63 - 1) ≤ℤ result }
    ensures high { result <ℤ pos (2 ^ 63) }
{
    residue(size, number).signed()
}

/// Whether an immediate of 32 bits, read with a sign, holds a number.
pub fn fits_four_bytes(number: i128) -> bool
    ensures { result ≡ fits_bytes 4 number }
{
    (-0x8000_0000..0x8000_0000).contains(&number)
}
