//! The bytes of one instruction.

ghost use Rattle.std.specs.Prelude.{◌≡◌, ℕ, ◌+◌, ◌<◌, ◌≤◌, List, [], ◌∷◌, ◌++◌, length, take};
ghost use Rattle.std.specs.Option.{option_to_list};
ghost use Rattle.x64_insn.specs.Chosen.{bytes_of_number, signed_bytes};

use std::marker::Model;

/// Up to 15 bytes, as many as an instruction may have (Intel SDM vol. 2, 2.3.11). Contracts see the
/// list of them.
#[derive(Drop)]
pub struct Code15 {
    bytes: [u8; 15],
    len: u8,
}

impl Model for Code15 {
    ghost use Rattle.std.specs.Prelude.{ℕ, ◌≤◌, List, take};

    ghost Value = { List ℕ };

    ghost view = { λ c. take c.len c.bytes };

    ghost invariant = { λ c. c.len ≤ 15 };
}

impl Code15 {
    /// No bytes.
    pub(super) fn new() -> Self
        ensures { result ≡ [] }
    {
        Code15 {
            bytes: [0; 15],
            len: 0,
        }
    }

    /// The bytes.
    pub fn as_slice(&self) -> &[u8]
        ensures value { result.now ≡ self.now }
        ensures fits { length self.now ≤ 15 }
    {
        &self.bytes[..usize::from(self.len)]
    }

    /// Puts a byte at the end.
    pub(super) fn push(&mut self, byte: u8)
        requires { length self.old < 15 }
        ensures { self.new ≡ self.old ++ byte ∷ [] }
    {
        self.bytes[usize::from(self.len)] = byte;
        self.len += 1;
    }

    /// Puts the lowest bytes of a number at the end, so many as are counted.
    pub(super) fn push_number(&mut self, number: u64, count: usize)
        requires { length self.old + count ≤ 15 }
        ensures { self.new ≡ self.old ++ bytes_of_number count number }
    {
        let mut rest = number;
        for _ in 0..count {
            self.push((rest % 256) as u8);
            rest /= 256;
        }
    }

    /// Puts the lowest bytes of a signed number at the end, so many as are counted.
    pub(super) fn push_signed(&mut self, number: i64, count: usize)
        requires room { length self.old + count ≤ 15 }
        requires count { count ≤ 8 }
        ensures { self.new ≡ self.old ++ signed_bytes count number }
    {
        self.push_number(number.cast_unsigned(), count);
    }

    /// Puts a byte at the end, if there is one.
    pub(super) fn push_option(&mut self, byte: Option<u8>)
        requires { length self.old < 15 }
        ensures { self.new ≡ self.old ++ option_to_list byte }
    {
        if let Some(byte) = byte {
            self.push(byte);
        }
    }
}
