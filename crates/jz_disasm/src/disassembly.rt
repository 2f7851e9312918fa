//! The disassembly of code.

ghost use Rattle.std.specs.Prelude.{◌≡◌, ◌<◌, ◌≤◌, ◌+◌, ◌++◌, ◌^◌, IfOk, IfErr, length, drop, take};
ghost use Rattle.jz_data.specs.Failures.{IfAnswered, IfRefused};
ghost use Rattle.x64_insn.specs.declared.types.Insn.{Insn};
ghost use Rattle.x64_insn.specs.Encoding.{Decodes};
ghost use Rattle.jz_disasm.specs.Instructions.{line_text};
ghost use Rattle.jz_disasm.specs.Disassembly.{Disassembles, HasNoInsn};

use crate::instructions::write_line;
use jz_data::Failure;
use jz_io::Bytes;
use std::alloc::{AllocError, Global};
use x64_decode::{Decoded, decode};
use x64_insn::Insn;

/// Why no instruction stands at a place.
#[derive(Clone, Copy, PartialEq, Eq)]
pub enum GapKind {
    /// No instruction begins with the bytes.
    Unknown,
    /// The bytes end within an instruction.
    Truncated,
}

/// A place in code where no instruction stands.
#[derive(Clone, Copy, PartialEq, Eq, Drop)]
pub struct Gap {
    pub offset: usize,
    pub kind: GapKind,
}

/// An instruction and how many bytes it has, or why there is none.
fn next_insn(bytes: &[u8]) -> Result<(Insn, usize), GapKind>
    ensures insn { IfOk result (λ x. Decodes bytes.now x.0 x.1) }
    ensures gap { IfErr result (λ kind. HasNoInsn bytes.now kind) }
{
    match decode(bytes) {
        Decoded::Insn { insn, len } => Ok((insn, usize::from(len))),
        Decoded::Unknown => Err(GapKind::Unknown),
        Decoded::Truncated => Err(GapKind::Truncated),
    }
}

/// The line of the instruction at an offset, with the instruction's length.
fn write_next(
    alloc: Global,
    text: &mut Vec<u8>,
    code: &[u8],
    offset: usize,
) -> Result<usize, Failure<Gap>>
    requires below { offset < length code.now }
    requires small { length code.now < 2 ^ 32 }
    ensures line { IfOk result (λ len. (i : Insn) × Decodes (drop offset code.now) i len
        × (text.new.items
        ≡ text.old.items ++ line_text offset (take len (drop offset code.now)) i)) }
    ensures gap { IfErr result (λ failure. IfRefused failure
        (λ gap. (gap.offset ≡ offset) × HasNoInsn (drop offset code.now) gap.kind)) }
{
    let rest = &code[offset..];
    match next_insn(rest) {
        Ok((insn, len)) => {
            write_line(alloc, text, offset as u32, &rest[..len], insn)?;
            Ok(len)
        }
        Err(kind) => Err(Failure::Refused(Gap { offset, kind })),
    }
}

/// The lines of the instructions that code is, from its first byte on; or the first offset at which
/// no instruction stands. Each line has the offset, the bytes and the instruction; targets of jumps
/// are offsets too.
#[tactic(auto, using(crate::proofs::Joining::at_end, crate::proofs::Joining::gap_here))]
pub fn disasm(alloc: Global, code: &[u8]) -> Result<Bytes, Failure<Gap>>
    requires { length code.now < 2 ^ 32 }
    ensures { IfAnswered result (Disassembles code.now) }
{
    let mut text = Vec::new(alloc);
    let mut offset = 0;
    while offset < code.len() {
        offset += write_next(alloc, &mut text, code, offset)?;
    }
    Ok(Bytes::from_vec(text))
}
