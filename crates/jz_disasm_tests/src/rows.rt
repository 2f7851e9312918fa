//! The answers to rows.

use jz_data::Failure;
use jz_disasm::{Gap, GapKind, bytes_of_hex, disasm};
use std::alloc::{AllocError, Global};

/// The name of a gap's kind.
pub fn kind_name(kind: GapKind) -> &'static str {
    match kind {
        GapKind::Unknown => "Unknown",
        GapKind::Truncated => "Truncated",
    }
}

/// Appends lines, each with a bar in place of its line feed.
fn write_lines(text: &mut String, lines: &[u8]) -> Result<(), AllocError> {
    for byte in lines {
        text.push(if *byte == b'\n' {
            '|'
        } else {
            char::from(*byte)
        })?;
    }
    Ok(())
}

fn write_gap(text: &mut String, gap: Gap) -> Result<(), AllocError> {
    let offset = gap.offset;
    let kind = kind_name(gap.kind);
    write!(text, "undecodable {offset} {kind}")
}

fn write_disassembly(alloc: Global, text: &mut String, code: &[u8]) -> Result<(), AllocError> {
    if code.len() >= 1 << 32 {
        return Ok(());
    }
    match disasm(alloc, code) {
        Ok(lines) => write_lines(text, lines.as_slice()),
        Err(Failure::Refused(gap)) => write_gap(text, gap),
        Err(Failure::OutOfMemory) => Err(AllocError),
    }
}

/// The lines of hexadecimal text, or why there are none.
pub fn answer(alloc: Global, question: &str) -> Result<String, AllocError> {
    let mut text = String::new(alloc);
    match bytes_of_hex(alloc, question.as_bytes()) {
        Ok(code) => write_disassembly(alloc, &mut text, code.as_slice())?,
        Err(Failure::Refused(offset)) => write!(text, "BadHex {offset}")?,
        Err(Failure::OutOfMemory) => return Err(AllocError),
    }
    Ok(text)
}
