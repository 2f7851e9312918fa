//! Rows of disassembly. Standard input has a row a line: hexadecimal text, and behind ` =` its
//! lines as GNU objdump 2.40 reads the bytes, in the words of this repository; or why there are
//! none. What is printed is each row that is answered otherwise, and at the end how many rows there
//! are; then what becomes of each text of two bytes.
#![tactic(auto)]

mod pairs;
mod rows;

use std::io;

/// How many rows were asked, and how many of them were answered otherwise.
#[derive(Clone, Copy)]
struct Count {
    asked: u64,
    otherwise: u64,
}

/// Whether a row is answered otherwise; then it is printed, and the answer below it.
fn is_otherwise(rt: &HostRuntime, row: &str) -> io::Result<bool> {
    let (question, wanted) = row.split_once(" =").unwrap_or((row, ""));
    let found = rows::answer(rt.alloc(), question)?;
    if found.as_str() == wanted {
        return Ok(false);
    }
    println!(rt; "{row}\n    is answered {found}")?;
    Ok(true)
}

fn after_row(rt: &HostRuntime, row: &str, count: Count) -> io::Result<Count> {
    match is_otherwise(rt, row) {
        Ok(otherwise) => Ok(Count {
            asked: count.asked.saturating_add(1),
            otherwise: count.otherwise.saturating_add(u64::from(otherwise)),
        }),
        Err(error) => Err(error),
    }
}

fn main(rt: HostRuntime) -> io::Result<()> {
    let mut count = Count {
        asked: 0,
        otherwise: 0,
    };
    for line in rt.lines(rt.alloc()) {
        count = after_row(&rt, line?.as_str(), count)?;
    }
    let Count { asked, otherwise } = count;
    println!(rt; "{asked} rows, {otherwise} answered otherwise")?;
    let pairs = pairs::counts(rt.alloc())?;
    let pairs::Pairs {
        lines,
        unknown,
        truncated,
        otherwise,
    } = pairs;
    println!(rt; "two bytes: {lines} lines, {unknown} Unknown, {truncated} Truncated")?;
    println!(rt; "{otherwise} otherwise than the decoder")
}
