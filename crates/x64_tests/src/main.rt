//! Rows of words, instructions, their bytes and the machine, with answers from outside. Standard
//! input has a row a line, a question and behind ` =` its answer; lines that begin with `#` say
//! what the rows below are about. What is printed is each row that is answered otherwise, and at
//! the end how many rows there are.
#![tactic(auto)]

mod insns;
mod machines;
mod numbers;
mod rows;
mod runs;
mod spellings;
mod unspelled;
mod words;

use std::io;

/// How many rows were asked, and how many of them were answered otherwise.
#[derive(Clone, Copy)]
struct Count {
    asked: u64,
    otherwise: u64,
}

impl Count {
    fn one_more(self, otherwise: bool) -> Count {
        Count {
            asked: self.asked.saturating_add(1),
            otherwise: self.otherwise.saturating_add(u64::from(otherwise)),
        }
    }
}

/// Whether a row is answered otherwise; then it is printed, and the answer below it.
fn is_otherwise(rt: &HostRuntime, row: &str) -> io::Result<bool> {
    let (question, wanted) = row.split_once(" =").unwrap_or((row, ""));
    let found = rows::answer(rt.alloc(), question)?;
    if found.as_str() == wanted {
        return Ok(false);
    }
    println!(rt; "{row}\n    is answered{found}")?;
    Ok(true)
}

fn after_row(rt: &HostRuntime, row: &str, count: Count) -> io::Result<Count> {
    if row.starts_with('#') {
        return Ok(count);
    }
    match is_otherwise(rt, row) {
        Ok(otherwise) => Ok(count.one_more(otherwise)),
        Err(error) => Err(error),
    }
}

fn main(rt: HostRuntime) -> io::Result<()> {
    let mut count = Count {
        asked: 0,
        otherwise: 0,
    };
    for line in rt.lines(rt.alloc()) {
        count = after_row(&rt, line?.as_str(), count)?;
    }
    let Count { asked, otherwise } = count;
    println!(rt; "{asked} rows, {otherwise} answered otherwise")?;
    let (operands, numbers, addresses) = unspelled::counts();
    println!(rt;
        "{operands} of 13, {numbers} of 9 and {addresses} of 5 without a spelling have one"
    )
}
