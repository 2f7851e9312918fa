//! What is asked of a text, and the answer.

use crate::listings::{in_one_line, pieces, why};
use crate::runs::compare;
use crate::texts::{Answer, compiled_text, typed_text};
use jz_listing::Compiled;
use jz_types::Typed;
use std::alloc::{AllocError, Global};

/// What is asked of the last function of a text.
#[derive(Clone, Copy)]
pub enum Asked<'a> {
    Listing,
    Lines,
    Refused,
    /// The results of runs on these inputs.
    Runs(&'a str),
}

/// What is asked of a text, and the answer that is wanted.
#[derive(Clone, Copy)]
pub struct Row<'a> {
    pub asked: Asked<'a>,
    pub text: &'a str,
    pub wanted: &'a str,
}

/// The row of a line, where it is one.
pub fn row_of(line: &str) -> Option<Row<'_>> {
    let (word, rest) = line.split_once(' ')?;
    let (text, rest) = rest.split_once(" => ")?;
    let (asked, wanted) = match word {
        "listing" => (Asked::Listing, rest),
        "lines" => (Asked::Lines, rest),
        "refused" => (Asked::Refused, rest),
        "runs" => {
            let (inputs, wanted) = rest.split_once(" => ")?;
            (Asked::Runs(inputs), wanted)
        }
        _ => return None,
    };
    Some(Row {
        asked,
        text,
        wanted,
    })
}

/// The answer to a row.
pub fn answer(alloc: Global, row: &Row<'_>) -> Result<String, AllocError> {
    let mut out = String::new(alloc);
    match typed_text(alloc, row.text) {
        Err(word) => out.push_str(word)?,
        Ok(typed) => match compiled_text(alloc, &typed)? {
            Answer::Made(compiled) => answer_compiled(alloc, row, &typed, compiled, &mut out)?,
            Answer::Refused(refusal) => why(refusal, &mut out)?,
            Answer::None(word) => out.push_str(word)?,
        },
    }
    Ok(out)
}

/// What is asked of a compiled function.
fn answer_compiled(
    alloc: Global,
    row: &Row<'_>,
    typed: &Typed,
    compiled: Compiled,
    out: &mut String,
) -> Result<(), AllocError> {
    match row.asked {
        Asked::Listing => in_one_line(alloc, compiled, out),
        Asked::Lines => pieces(alloc, compiled, row.wanted, out),
        Asked::Refused => out.push_str("compiled"),
        Asked::Runs(inputs) => compare(alloc, typed, &compiled, inputs, out),
    }
}
