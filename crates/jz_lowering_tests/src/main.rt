//! Rows of statements and the operations that they become, worked by hand from the pattern table.
//! Standard input has a row a line, a statement and behind ` => ` its operations; lines that begin
//! with `#` say what the rows below are about. An operation is its instruction with variables for
//! registers, and in `<>` the places of the numbers that it shows; a cell of a stack variable is
//! NAME[index], a scalar NAME[0]. `none`: the statement has no row. A row of a whole function has its
//! parameters, its body, its results, what its variables hold with the cells of its stack variables,
//! and how many places are in use; or the place where it is refused. What is printed is each row that
//! becomes something else, and at the end how many rows there are.
#![tactic(auto)]

mod functions;
mod operands;
mod operations;
mod texts;

use std::io;

/// How many rows were asked, and how many of them were answered otherwise.
#[derive(Clone, Copy)]
struct Count {
    asked: u64,
    otherwise: u64,
}

impl Count {
    fn one_more(self, otherwise: bool) -> Count {
        Count {
            asked: self.asked.saturating_add(1),
            otherwise: self.otherwise.saturating_add(u64::from(otherwise)),
        }
    }
}

/// Whether a row is answered otherwise; then it is printed, and the answer below it.
fn is_otherwise(rt: &HostRuntime, row: &str) -> io::Result<bool> {
    let (statement, wanted) = row.split_once(" => ").unwrap_or((row, ""));
    let found = texts::answer(rt.alloc(), statement)?;
    if found.as_str() == wanted {
        return Ok(false);
    }
    println!(rt; "{row}\n    becomes {found}")?;
    Ok(true)
}

fn after_row(rt: &HostRuntime, row: &str, count: Count) -> io::Result<Count> {
    if row.starts_with('#') {
        return Ok(count);
    }
    match is_otherwise(rt, row) {
        Ok(otherwise) => Ok(count.one_more(otherwise)),
        Err(error) => Err(error),
    }
}

fn main(rt: HostRuntime) -> io::Result<()> {
    let mut count = Count {
        asked: 0,
        otherwise: 0,
    };
    for line in rt.lines(rt.alloc()) {
        count = after_row(&rt, line?.as_str(), count)?;
    }
    let Count { asked, otherwise } = count;
    println!(rt; "{asked} rows, {otherwise} become something else")
}
