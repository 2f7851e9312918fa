//! Instructions to bytes.
#![tactic(auto)]

ghost use Rattle.std.specs.Prelude.{◌≡◌, ◌↔◌, ◌++◌, List, ℕ, length, IsTrue};
ghost use Rattle.x64_insn.specs.declared.types.Insn.{Insn};
ghost use Rattle.x64_insn.specs.Encoding.{HasSpelling, Spells};
ghost use Rattle.x64_insn.specs.Chosen.{chosen_bytes, is_spelled};
ghost use Rattle.x64_decode.specs.Decoding.{decoded_of};

mod choice;
mod code;
mod fields;
mod numbers;
mod spelled;

pub use code::Code15;
use x64_decode::Decoded;
use x64_insn::Insn;

/// Whether an instruction has a spelling, so that `encode` may be called.
pub fn has_spelling(insn: &Insn) -> bool
    ensures spelling { IsTrue result ↔ HasSpelling insn.now }
    // The same as a test, for the layers above.
    ensures exact { result ≡ is_spelled insn.now }
{
    spelled::is_spelled(*insn)
}

/// The bytes that are chosen, none for an instruction without a spelling.
#[tactic(auto, unfolding(x64_insn::specs::Chosen::chosen_bytes))]
fn chosen(insn: Insn) -> Code15
    ensures { result ≡ chosen_bytes insn }
{
    match choice::choose(insn) {
        Some(fields) => fields.bytes(),
        None => Code15::new(),
    }
}

/// The bytes that are chosen among the spellings of an instruction.
pub fn encode(insn: &Insn) -> Code15
    requires { HasSpelling insn.now }
    ensures spelling { Spells result insn.now }
    ensures chosen { result ≡ chosen_bytes insn.now }
{
    chosen(*insn)
}

/// What is encoded is decoded, whatever follows it.
pub fn round_trip()
    ensures { (i : Insn) (rest : List ℕ) → HasSpelling i
        → decoded_of (chosen_bytes i ++ rest) ≡ Decoded.Insn i (length (chosen_bytes i)) }
{}
