//! Rows of small functions and what is told of them, worked by hand from the rules of constant time.
//! Standard input has a row a line; lines that begin with `#` say what the rows below are about. A
//! row is a text, ` => ` and `yes`, or `no` with the place, the reason and the first secret of the
//! first breach of the last function. What is printed is each row of which something else is told,
//! and at the end how many rows there are.
#![tactic(auto)]

mod answers;

use std::io;

/// How many rows were asked, and of how many of them something else is told.
#[derive(Clone, Copy)]
struct Count {
    asked: u64,
    otherwise: u64,
}

impl Count {
    fn one_more(self, otherwise: bool) -> Count {
        Count {
            asked: self.asked.saturating_add(1),
            otherwise: self.otherwise.saturating_add(u64::from(otherwise)),
        }
    }
}

/// Whether something else is told of a row; then it is printed, and the answer below it.
fn is_otherwise(rt: &HostRuntime, line: &str) -> io::Result<bool> {
    let Some((text, wanted)) = line.split_once(" => ") else {
        println!(rt; "{line}\n    is no row")?;
        return Ok(true);
    };
    let found = answers::answer(rt.alloc(), text)?;
    if found.as_str() == wanted {
        return Ok(false);
    }
    println!(rt; "{line}\n    is told {found}")?;
    Ok(true)
}

fn after_row(rt: &HostRuntime, line: &str, count: Count) -> io::Result<Count> {
    if line.starts_with('#') {
        return Ok(count);
    }
    match is_otherwise(rt, line) {
        Ok(otherwise) => Ok(count.one_more(otherwise)),
        Err(error) => Err(error),
    }
}

fn main(rt: HostRuntime) -> io::Result<()> {
    let mut count = Count {
        asked: 0,
        otherwise: 0,
    };
    for line in rt.lines(rt.alloc()) {
        count = after_row(&rt, line?.as_str(), count)?;
    }
    let Count { asked, otherwise } = count;
    println!(rt; "{asked} rows, {otherwise} are told otherwise")
}
