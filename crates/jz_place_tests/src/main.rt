//! Rows of code whose variables want places. Standard input has a row a line, the code and behind
//! ` =` its answer, worked by hand; lines that begin with `#` say what the rows below are about.
//! What is printed is each row that is answered otherwise, and at the end how many rows there are.
//!
//! A row that begins with `vars:` is code of which is seen what each operation reads and writes: its
//! answer is what is live after each, and the place of each variable or why one has none. The
//! variables are named in the order of declaration, words by small letters and flags by capitals. An
//! operation is `READS>WRITES!FIXED@VARIABLE=PLACE,..`. Branches are `if:OPERATION .. else .. end`,
//! loops `loop .. test:OPERATION .. end`, where `test` alone is `true`. Operations are numbered from
//! 1 in the order of the code: `rax=b#2` is a holder there, and `rdi#1` a need.
//!
//! A row that begins with `fun:` is a function: parameters `in:x=rdi,..`, the body, and results
//! `out:x=rax,..`; `slots:0,8` says where the cells of stack variables stand. Its answer is what is
//! seen of each operation, the places, and the instructions. An operation of the body is
//! `NAME/SIZE:OPERANDS^FLAG=VARIABLE,..`; branches are `if:CONDITION:OPERATION`, or `if:C` and
//! `if:!C` by a flag.
#![tactic(auto)]

mod answers;
mod fitting;
mod functions;
mod instructions;
mod names;
mod operations;
mod reading;
mod seeing;

use std::alloc::{AllocError, Global};
use std::io;

/// How many rows were asked, and how many of them were answered otherwise.
#[derive(Clone, Copy)]
struct Count {
    asked: u64,
    otherwise: u64,
}

impl Count {
    fn one_more(self, otherwise: bool) -> Count {
        Count {
            asked: self.asked.saturating_add(1),
            otherwise: self.otherwise.saturating_add(u64::from(otherwise)),
        }
    }
}

/// Each word behind a space.
fn answer(alloc: Global, question: &str) -> Result<String, AllocError> {
    let (names, rest) = question.split_once(' ').unwrap_or((question, ""));
    match names.strip_prefix("fun:") {
        Some(letters) => seeing::function_answer(alloc, letters.as_bytes(), rest),
        None => {
            let letters = names.strip_prefix("vars:").unwrap_or("");
            answers::code_answer(alloc, letters.as_bytes(), rest)
        }
    }
}

/// Whether a row is answered otherwise; then it is printed, and the answer below it.
fn is_otherwise(rt: &HostRuntime, row: &str) -> io::Result<bool> {
    let (question, wanted) = row.split_once(" =").unwrap_or((row, ""));
    let found = answer(rt.alloc(), question)?;
    if found.as_str() == wanted {
        return Ok(false);
    }
    println!(rt; "{row}\n    is answered{found}")?;
    Ok(true)
}

fn after_row(rt: &HostRuntime, row: &str, count: Count) -> io::Result<Count> {
    if row.starts_with('#') {
        return Ok(count);
    }
    match is_otherwise(rt, row) {
        Ok(otherwise) => Ok(count.one_more(otherwise)),
        Err(error) => Err(error),
    }
}

fn main(rt: HostRuntime) -> io::Result<()> {
    let mut count = Count {
        asked: 0,
        otherwise: 0,
    };
    for line in rt.lines(rt.alloc()) {
        count = after_row(&rt, line?.as_str(), count)?;
    }
    let Count { asked, otherwise } = count;
    println!(rt; "{asked} rows, {otherwise} answered otherwise")
}
