//! Each text of two bytes, against the answers of the decoder.

use jz_data::Failure;
use jz_disasm::{Gap, GapKind, bytes_of_hex, disasm};
use std::alloc::{AllocError, Global};
use x64_decode::{Decoded, decode};

/// How many lines the texts have, how many texts are refused, and how many are answered otherwise
/// than the decoder.
#[derive(Clone, Copy)]
pub struct Pairs {
    pub lines: u64,
    pub unknown: u64,
    pub truncated: u64,
    pub otherwise: u64,
}

/// What becomes of two bytes.
#[derive(Clone, Copy, PartialEq, Eq)]
enum Outcome {
    Lines(usize),
    Gap(usize, GapKind),
}

/// The outcome by the decoder alone, from a place on.
fn decoded(bytes: &[u8; 2], first: usize) -> Result<usize, GapKind> {
    let rest = if first == 0 { &bytes[..] } else { &bytes[1..] };
    match decode(rest) {
        Decoded::Insn { len, .. } => Ok(usize::from(len)),
        Decoded::Unknown => Err(GapKind::Unknown),
        Decoded::Truncated => Err(GapKind::Truncated),
    }
}

fn by_decoder(bytes: &[u8; 2]) -> Outcome {
    match decoded(bytes, 0) {
        Err(kind) => Outcome::Gap(0, kind),
        Ok(1) => match decoded(bytes, 1) {
            Err(kind) => Outcome::Gap(1, kind),
            Ok(_) => Outcome::Lines(2),
        },
        Ok(_) => Outcome::Lines(1),
    }
}

fn count_of(lines: &[u8]) -> usize {
    lines.iter().filter(|byte| **byte == b'\n').count()
}

fn disassembled(alloc: Global, text: &str) -> Result<Outcome, Failure<usize>> {
    let code = bytes_of_hex(alloc, text.as_bytes())?;
    if code.len() != 2 {
        return Err(Failure::Refused(code.len()));
    }
    match disasm(alloc, code.as_slice()) {
        Ok(lines) => Ok(Outcome::Lines(count_of(lines.as_slice()))),
        Err(Failure::Refused(Gap { offset, kind })) => Ok(Outcome::Gap(offset, kind)),
        Err(Failure::OutOfMemory) => Err(Failure::OutOfMemory),
    }
}

fn one_more(pairs: Pairs, outcome: Outcome, same: bool) -> Pairs {
    let mut pairs = pairs;
    pairs.otherwise = pairs.otherwise.saturating_add(u64::from(!same));
    match outcome {
        Outcome::Lines(count) => pairs.lines = pairs.lines.saturating_add(count as u64),
        Outcome::Gap(_, GapKind::Unknown) => pairs.unknown = pairs.unknown.saturating_add(1),
        Outcome::Gap(_, GapKind::Truncated) => pairs.truncated = pairs.truncated.saturating_add(1),
    }
    pairs
}

fn after(alloc: Global, pairs: Pairs, bytes: [u8; 2]) -> Result<Pairs, AllocError> {
    let [first, second] = bytes;
    let text = format!(in alloc; "{first:02x}{second:02x}")?;
    let wanted = by_decoder(&bytes);
    match disassembled(alloc, text.as_str()) {
        Ok(outcome) => Ok(one_more(pairs, outcome, outcome == wanted)),
        Err(_) => Ok(one_more(pairs, wanted, false)),
    }
}

/// The counts over all texts of two bytes.
pub fn counts(alloc: Global) -> Result<Pairs, AllocError> {
    let mut pairs = Pairs {
        lines: 0,
        unknown: 0,
        truncated: 0,
        otherwise: 0,
    };
    for number in 0..=u16::MAX {
        pairs = after(alloc, pairs, number.to_be_bytes())?;
    }
    Ok(pairs)
}
