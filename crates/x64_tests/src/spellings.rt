//! Bytes that are read as an instruction, and instructions that are written as bytes.

use crate::insns::write_insn;
use crate::numbers::bytes;
use std::alloc::{AllocError, Global};
use x64_encode::{encode, has_spelling};
use x64_insn::Insn;
use x64_machine::{Decoded, decode};

/// Whether fewer bytes are no instruction yet.
fn begins(spelling: &[u8]) -> bool {
    for end in 0..spelling.len() {
        match decode(&spelling[..end]) {
            Decoded::Truncated => {}
            _ => return false,
        }
    }
    true
}

/// How an instruction has so many of the bytes, where that is not all of them.
fn write_length(text: &mut String, bytes: &[u8], len: u8) -> Result<(), AllocError> {
    let len = usize::from(len);
    if len > bytes.len() || !begins(&bytes[..len]) {
        return text.push_str(" too early");
    }
    if len < bytes.len() {
        return write!(text, " of {len}");
    }
    Ok(())
}

/// Appends what bytes begin with; then how many of them it has, where those are not all.
pub fn write_decoded(text: &mut String, bytes: &[u8]) -> Result<(), AllocError> {
    match decode(bytes) {
        Decoded::Unknown => text.push_str(" unknown"),
        Decoded::Truncated => text.push_str(" truncated"),
        Decoded::Insn { insn, len } => {
            write_insn(text, &insn)?;
            write_length(text, bytes, len)
        }
    }
}

/// The answer to `bytes`.
pub fn read(alloc: Global, question: &str) -> Result<String, AllocError> {
    let code = bytes(alloc, question)?;
    let mut text = String::new(alloc);
    write_decoded(&mut text, code.as_slice())?;
    Ok(text)
}

fn is_written_as(insn: &Insn, bytes: &[u8]) -> bool {
    has_spelling(insn) && encode(insn).as_slice() == bytes
}

/// Whether bytes are those of an instruction.
fn are_written(bytes: &[u8]) -> bool {
    match decode(bytes) {
        Decoded::Insn { insn, .. } => is_written_as(&insn, bytes),
        _ => false,
    }
}

/// The answer to `code`: an instruction that is written as these bytes.
pub fn written(alloc: Global, question: &str) -> Result<String, AllocError> {
    let code = bytes(alloc, question)?;
    let mut text = String::new(alloc);
    if are_written(code.as_slice()) {
        write_decoded(&mut text, code.as_slice())?;
    }
    Ok(text)
}
