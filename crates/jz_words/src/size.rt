//! The sizes of words.

ghost use Rattle.std.specs.Prelude.{◌≡◌};
ghost use Rattle.jz_words.specs.Sizes.{bits_of, bytes_of, half, modulus};

/// How many bits a word has.
#[derive(Clone, Copy, PartialEq, Eq)]
pub enum Size {
    S8,
    S16,
    S32,
    S64,
}

impl Size {
    /// The number of bits.
    pub fn bits(self) -> u32
        ensures { result ≡ bits_of self }
    {
        match self {
            Size::S8 => 8,
            Size::S16 => 16,
            Size::S32 => 32,
            Size::S64 => 64,
        }
    }

    /// The number of bytes.
    pub fn bytes(self) -> u32
        ensures { result ≡ bytes_of self }
    {
        match self {
            Size::S8 => 1,
            Size::S16 => 2,
            Size::S32 => 4,
            Size::S64 => 8,
        }
    }

    /// The least word whose sign is minus.
    pub fn half(self) -> u64
        ensures { result ≡ half self }
    {
        match self {
            Size::S8 => 1 << 7,
            Size::S16 => 1 << 15,
            Size::S32 => 1 << 31,
            Size::S64 => 1 << 63,
        }
    }

    /// How many words of the size there are.
    pub fn modulus(self) -> u128
        ensures { result ≡ modulus self }
    {
        match self {
            Size::S8 => 1 << 8,
            Size::S16 => 1 << 16,
            Size::S32 => 1 << 32,
            Size::S64 => 1 << 64,
        }
    }
}
