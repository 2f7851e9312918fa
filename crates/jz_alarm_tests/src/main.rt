//! Rows of small functions with their first alarm, or with the line that says that they are safe,
//! worked by hand from the rules of facts; and what a run of each comes to. Standard input has a row
//! a line; lines that begin with `#` say what the rows below are about. With ` => ` between them a
//! row has: the words of the parameters of a text's last function; so many true tests of `while`; the
//! text, in which a backslash stands for a line feed; what `check` gives of it, with backslashes too;
//! what the run comes to.
//!
//! 64 bytes of memory begin at 4096; the first of each eight is 1, the others are 0. What is printed
//! is each row that is answered otherwise, and at the end how many rows there are.
#![tactic(auto)]

mod answers;
mod running;

use std::io;

/// How many rows were asked, and how many of them were answered otherwise.
#[derive(Clone, Copy)]
struct Count {
    asked: u64,
    otherwise: u64,
}

impl Count {
    fn one_more(self, otherwise: bool) -> Count {
        Count {
            asked: self.asked.saturating_add(1),
            otherwise: self.otherwise.saturating_add(u64::from(otherwise)),
        }
    }
}

/// Whether a row is answered otherwise; then it is printed, and the answer below it.
fn is_otherwise(rt: &HostRuntime, line: &str) -> io::Result<bool> {
    let Some(row) = answers::row_of(line) else {
        println!(rt; "{line}\n    is no row")?;
        return Ok(true);
    };
    let found = answers::answer(rt.alloc(), &row)?;
    if found.as_str() == row.wanted {
        return Ok(false);
    }
    println!(rt; "{line}\n    is answered by {found}")?;
    Ok(true)
}

fn after_row(rt: &HostRuntime, line: &str, count: Count) -> io::Result<Count> {
    if line.starts_with('#') {
        return Ok(count);
    }
    match is_otherwise(rt, line) {
        Ok(otherwise) => Ok(count.one_more(otherwise)),
        Err(error) => Err(error),
    }
}

fn main(rt: HostRuntime) -> io::Result<()> {
    let mut count = Count {
        asked: 0,
        otherwise: 0,
    };
    for line in rt.lines(rt.alloc()) {
        count = after_row(&rt, line?.as_str(), count)?;
    }
    let Count { asked, otherwise } = count;
    println!(rt; "{asked} rows, {otherwise} are answered otherwise")
}
