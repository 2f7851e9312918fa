//! The rows, and the answers to them.

use crate::running::{Given, run_of};
use jasminc_check::{Refused, Unread, check_text, write_alarm};
use jz_tree::Failure;
use std::alloc::{AllocError, Global};

/// A text with what its last function is given, and the answer that is wanted: of `check`, and then
/// of a run.
#[derive(Clone, Copy)]
pub struct Row<'a> {
    pub text: &'a str,
    pub given: Given<'a>,
    pub wanted: &'a str,
}

/// The row of a line, where it is one.
pub fn row_of(line: &str) -> Option<Row<'_>> {
    let (words, rest) = line.split_once(" => ")?;
    let (turns, rest) = rest.split_once(" => ")?;
    let (text, wanted) = rest.split_once(" => ")?;
    let turns = turns.parse::<u64>().ok()?;
    Some(Row {
        text,
        given: Given { words, turns },
        wanted,
    })
}

/// A text with line feeds in place of its backslashes.
fn in_lines(alloc: Global, text: &str) -> Result<Vec<u8>, AllocError> {
    let mut lines = Vec::new(alloc);
    for byte in text.as_bytes() {
        let byte = if *byte == b'\\' { b'\n' } else { *byte };
        lines.push(byte)?;
    }
    Ok(lines)
}

/// Appends bytes as text, with backslashes in place of line feeds.
fn show(bytes: &[u8], out: &mut String) -> Result<(), AllocError> {
    for byte in bytes {
        let byte = if *byte == b'\n' { b'\\' } else { *byte };
        out.push(char::from(byte))?;
    }
    Ok(())
}

fn show_refused(alloc: Global, refused: &Refused, out: &mut String) -> Result<(), AllocError> {
    match refused {
        Refused::Unread(Unread::Lex(_)) => out.push_str("no tokens"),
        Refused::Unread(Unread::Parse(_)) => out.push_str("no program"),
        Refused::Unread(Unread::Typing(fault)) => {
            write!(
                out,
                "type {} {}:{}",
                fault.rule.number(),
                fault.span.line,
                fault.span.col
            )
        }
        Refused::Limit(_) => out.push_str("limit"),
        Refused::Alarm(alarm) => {
            let mut line = Vec::new(alloc);
            write_alarm(&mut line, alarm)?;
            show(line.as_slice(), out)
        }
    }
}

/// The answer to a row.
pub fn answer(alloc: Global, row: &Row<'_>) -> Result<String, AllocError> {
    let mut out = String::new(alloc);
    let text = in_lines(alloc, row.text)?;
    if text.len() > 1_048_576 {
        out.push_str("too long")?;
        return Ok(out);
    }
    match check_text(alloc, text.as_slice()) {
        Ok(lines) => show(lines.as_slice(), &mut out)?,
        Err(Failure::Refused(refused)) => show_refused(alloc, &refused, &mut out)?,
        Err(Failure::OutOfMemory) => return Err(AllocError),
    }
    out.push_str(" => ")?;
    run_of(alloc, text.as_slice(), row.given, &mut out)?;
    Ok(out)
}
