//! Rows of small functions and what they become, worked by hand from the rules of the language.
//! Standard input has a row a line; lines that begin with `#` say what the rows below are about. Of a
//! text the last function is asked. The columns stand behind ` => `:
//!
//! - `inline`, the text, the words of its parameters, so many true tests of `while`; what the
//!   statements become where each call is a copy, how many statements there are with all that it
//!   calls and the variables of the frame, what a run of the function comes to with the numbers that
//!   it leaks, and what a run of what it becomes comes to;
//! - `columns`, the text; where the statements stand then;
//! - `unroll`, the text; what the statements become where then each `for` is its rounds, and the
//!   steps with the places of the numbers that are left, or where a value is missing;
//! - `scalars`, as `inline`, where cells of register arrays are scalars, with the steps in place of
//!   count and frame;
//! - `expand`, as `inline`, for the expansion, with the count of its statements alone;
//! - `count`, the text; how many statements there are in expanded order, or the first limit.
//!
//! 64 bytes of memory begin at 4096; the first of each eight is 1, the others are 0. What is printed
//! is each row that is answered otherwise, and at the end how many rows there are.
#![tactic(auto)]

mod answers;
mod changes;
mod outcomes;
mod printing;
mod running;
mod showing;

use std::io;

/// How many rows were asked, and how many of them were answered otherwise.
#[derive(Clone, Copy)]
struct Count {
    asked: u64,
    otherwise: u64,
}

impl Count {
    fn one_more(self, otherwise: bool) -> Count {
        Count {
            asked: self.asked.saturating_add(1),
            otherwise: self.otherwise.saturating_add(u64::from(otherwise)),
        }
    }
}

/// Whether a row is answered otherwise; then it is printed, and the answer below it.
fn is_otherwise(rt: &HostRuntime, line: &str) -> io::Result<bool> {
    let Some(row) = answers::row_of(line) else {
        println!(rt; "{line}\n    is no row")?;
        return Ok(true);
    };
    let found = answers::answer(rt.alloc(), &row)?;
    if found.as_str() == row.wanted {
        return Ok(false);
    }
    println!(rt; "{line}\n    becomes {found}")?;
    Ok(true)
}

fn after_row(rt: &HostRuntime, line: &str, count: Count) -> io::Result<Count> {
    if line.starts_with('#') {
        return Ok(count);
    }
    match is_otherwise(rt, line) {
        Ok(otherwise) => Ok(count.one_more(otherwise)),
        Err(error) => Err(error),
    }
}

fn main(rt: HostRuntime) -> io::Result<()> {
    let mut count = Count {
        asked: 0,
        otherwise: 0,
    };
    for line in rt.lines(rt.alloc()) {
        count = after_row(&rt, line?.as_str(), count)?;
    }
    let Count { asked, otherwise } = count;
    println!(rt; "{asked} rows, {otherwise} become something else")
}
