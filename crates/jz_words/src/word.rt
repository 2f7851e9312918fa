//! A word: as many bits as its size says.

ghost use Rattle.std.specs.Prelude.{◌≡◌, ◌<◌, ◌-◌, ◌%◌, ◌^◌, ◌≤ℤ◌, ◌<ℤ◌, pos, negsuc};
ghost use Rattle.jz_words.specs.Sizes.{modulus, signed};

use crate::size::Size;

/// A word of a size, by its bits as an unsigned number.
#[derive(Clone, Copy, PartialEq, Eq)]
pub struct Word {
    size: Size,
    bits: u64,
    pub ghost fits: { bits < modulus size },
}

impl Word {
    /// The word with these bits.
    pub fn new(size: Size, bits: u64) -> Self
        requires { bits < modulus size }
        ensures size { result.size ≡ size }
        ensures bits { result.bits ≡ bits }
    {
        Word { size, bits }
    }

    /// The word of a number's lowest bits.
    pub fn truncate(size: Size, value: u64) -> Self
        ensures size { result.size ≡ size }
        ensures bits { result.bits ≡ value % modulus size }
    {
        Word::reduced(size, value as u128)
    }

    /// The same of a longer number.
    pub(crate) fn reduced(size: Size, value: u128) -> Self
        ensures size { result.size ≡ size }
        ensures bits { result.bits ≡ value % modulus size }
    {
        let bits = (value % size.modulus()) as u64;
        Word { size, bits }
    }

    /// How many bits the word has.
    pub fn size(self) -> Size
        ensures { result ≡ self.size }
    {
        self.size
    }

    /// The word as a signed number: its highest bit stands for minus 2 to the size less one.
    #[tactic(auto, unfolding(crate::specs::Sizes::signed))]
    pub fn signed(self) -> i128
        ensures value { result ≡ signed self.size self.bits }
        ensures low { negsuc (2 ^ 63 - 1) ≤ℤ result }
        ensures high { result <ℤ pos (2 ^ 63) }
    {
        let half = self.size.half();
        let bits = self.bits as i128;
        if self.bits < half {
            bits
        } else {
            bits - 2 * half as i128
        }
    }

    /// The bits as an unsigned number.
    pub fn bits(self) -> u64
        ensures value { result ≡ self.bits }
        ensures fits { result < modulus self.size }
    {
        self.bits
    }
}
