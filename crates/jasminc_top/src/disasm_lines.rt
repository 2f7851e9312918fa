//! The lines that tell why a text has no disassembly, without their line feeds.

ghost use Rattle.std.specs.Prelude.{◌≡◌, ◌++◌, OnOk, decimal};
ghost use Rattle.jasminc_top.specs.DisasmLines.{fault_text, gap_name, gap_text};

use jz_disasm::{Gap, GapKind};
use jz_disasm_text::Fault;
use jz_text::write_number;
use std::alloc::AllocError;

#[tactic(auto, unfolding(crate::specs::DisasmLines::gap_name))]
fn gap_name(kind: GapKind) -> &'static str
    ensures { result.now ≡ gap_name kind }
{
    match kind {
        GapKind::Unknown => "Unknown",
        GapKind::Truncated => "Truncated",
    }
}

fn write_gap(line: &mut Vec<u8>, gap: Gap) -> Result<(), AllocError>
    ensures { OnOk result (line.new.items ≡ line.old.items ++ gap_text gap) }
{
    line.extend_from_slice(b"undecodable ")?;
    write_number(line, gap.offset as u64)?;
    line.extend_from_slice(b" ")?;
    line.extend_from_slice(gap_name(gap.kind).as_bytes())
}

fn write_numbered(line: &mut Vec<u8>, words: &[u8], number: usize) -> Result<(), AllocError>
    ensures { OnOk result (line.new.items ≡ line.old.items ++ (words.now ++ decimal number)) }
{
    line.extend_from_slice(words)?;
    write_number(line, number as u64)
}

pub fn write_disasm_fault(line: &mut Vec<u8>, fault: Fault) -> Result<(), AllocError>
    ensures { OnOk result (line.new.items ≡ line.old.items ++ fault_text fault) }
{
    match fault {
        Fault::BadListing(number) => write_numbered(line, b"syntax BadListing ", number),
        Fault::BadHex(offset) => write_numbered(line, b"syntax BadHex ", offset),
        Fault::Undecodable(gap) => write_gap(line, gap),
    }
}
