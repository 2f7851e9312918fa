//! Bytes to instructions.
#![tactic(auto)]

ghost use Rattle.std.specs.Prelude.{◌≡◌, ◌↔◌, ℕ, ◌++◌, List, length};
ghost use Rattle.x64_insn.specs.declared.types.Insn.{Insn};
ghost use Rattle.x64_insn.specs.Encoding.{Decodes, IsBeginning, Spells};
ghost use Rattle.x64_decode.specs.Decoding.{decoded_of};

mod meaning;
mod numbers;
mod reading;

use reading::{Stop, read_fields};
use x64_insn::Insn;

/// What bytes begin with: an instruction and how many bytes it has, no instruction whatever
/// follows, or less than a whole one.
#[derive(Clone, Copy)]
pub enum Decoded {
    Insn { insn: Insn, len: u8 },
    Unknown,
    Truncated,
}

#[tactic(auto, unfolding(crate::specs::Decoding::decoded_of, x64_insn::specs::Encoding::insn_of))]
fn answer(bytes: &[u8]) -> Decoded
    ensures { result ≡ decoded_of bytes.now }
{
    match read_fields(bytes) {
        Ok((fields, _)) => Decoded::Insn {
            insn: fields.insn(),
            len: fields.length(),
        },
        Err(Stop::Short) => Decoded::Truncated,
        Err(Stop::Bad) => Decoded::Unknown,
    }
}

/// The instruction that bytes begin with (Intel SDM vol. 2, chapter 2). Bytes after it play no
/// part.
pub fn decode(bytes: &[u8]) -> Decoded
    ensures insn { (i : Insn) (len : ℕ) → Decodes bytes.now i len ↔ (result ≡ Decoded.Insn i len) }
    ensures truncated { IsBeginning bytes.now ↔ (result ≡ Decoded.Truncated) }
    ensures unknown { ((¬ IsBeginning bytes.now)
        × ((i : Insn) (len : ℕ) → ¬ Decodes bytes.now i len)) ↔ (result ≡ Decoded.Unknown) }
    // The same as a function, for the layers above.
    ensures exact { result ≡ decoded_of bytes.now }
{
    answer(bytes)
}

/// A spelling is read, whatever follows it.
pub fn read_again()
    ensures { (bs rest : List ℕ) (i : Insn) → Spells bs i
        → decoded_of (bs ++ rest) ≡ Decoded.Insn i (length bs) }
{}

/// No spelling begins another, and none is of two instructions.
pub fn one_form()
    ensures { (a b x y : List ℕ) (i j : Insn) → Spells a i → Spells b j → a ++ x ≡ b ++ y
        → (a ≡ b) × (i ≡ j) }
{}
