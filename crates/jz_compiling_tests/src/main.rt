//! Rows of small functions and what they are compiled to, and runs of their bytes.
//! Standard input has a row a line; lines that begin with `#` say what the rows below are about. Of a
//! text the last function is asked. The columns stand behind ` => `:
//!
//! - `listing`, the text; the lines of its listing, with a bar between;
//! - `lines`, the text; some of these lines, with a bar between;
//! - `refused`, the text; `frame`, `place`, or the place of the statement that has no operations;
//! - `runs`, the text, inputs with ` ; ` between; `same` where for each input the bytes come to the
//!   same results and memory as the source, or both answers.
//!
//! An input has the words that stand in the argument registers: a parameter of fewer bits has the
//! low ones. 64 bytes of memory begin at 65,536. What is printed is each row that is answered
//! otherwise, and at the end how many rows there are.
#![tactic(auto)]

mod answers;
mod listings;
mod runs;
mod showing;
mod texts;

use std::io;

/// How many rows were asked, and how many of them were answered otherwise.
#[derive(Clone, Copy)]
struct Count {
    asked: u64,
    otherwise: u64,
}

impl Count {
    fn one_more(self, otherwise: bool) -> Count {
        Count {
            asked: self.asked.saturating_add(1),
            otherwise: self.otherwise.saturating_add(u64::from(otherwise)),
        }
    }
}

/// Whether a row is answered otherwise; then it is printed, and the answer below it.
fn is_otherwise(rt: &HostRuntime, line: &str) -> io::Result<bool> {
    let Some(row) = answers::row_of(line) else {
        println!(rt; "{line}\n    is no row")?;
        return Ok(true);
    };
    let found = answers::answer(rt.alloc(), &row)?;
    if found.as_str() == row.wanted {
        return Ok(false);
    }
    println!(rt; "{line}\n    becomes {found}")?;
    Ok(true)
}

fn after_row(rt: &HostRuntime, line: &str, count: Count) -> io::Result<Count> {
    if line.starts_with('#') {
        return Ok(count);
    }
    match is_otherwise(rt, line) {
        Ok(otherwise) => Ok(count.one_more(otherwise)),
        Err(error) => Err(error),
    }
}

fn main(rt: HostRuntime) -> io::Result<()> {
    let mut count = Count {
        asked: 0,
        otherwise: 0,
    };
    for line in rt.lines(rt.alloc()) {
        count = after_row(&rt, line?.as_str(), count)?;
    }
    let Count { asked, otherwise } = count;
    println!(rt; "{asked} rows, {otherwise} become something else")
}
