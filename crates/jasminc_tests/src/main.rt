//! Rows of whole commands over a text in memory, with the answers that the rules give by hand.
//! Standard input has a row a line; lines that begin with `#` say what the rows below are about:
//!
//! - `text TEXT`, the text of the file add.jazz in the rows below;
//! - `run WORDS => ANSWER`, the words of a command line, the program's name first, and the number of
//!   its status, how many functions were compiled, the faults that source and sink count, and what is
//!   written, a blank between them;
//! - `agree FUN ITEMS => yes`, a function and the items that it is run on: `interp` and `exec` end
//!   with the same results and regions, and the events of `exec` are those that `leak` gives, the
//!   printed transformer applied to the leak of the source.
//!
//! In a text and in what is written `\n` stands for a line feed; in a text also `\xHH` for the byte
//! of two hexadecimal digits. What is printed is each row that is answered otherwise, and at the end
//! how many rows there are.
//!
//! The tests ask what no such row can: texts that are made, faults of source and sink, and the stages
//! themselves. They stand apart from what they test, since a crate with tests is proved twice.
#![tactic(auto)]

mod agreement;
mod answers;
#[cfg(test)]
mod call_tests;
mod commands;
#[cfg(test)]
mod disasm_tests;
mod escapes;
#[cfg(test)]
mod live_tests;
#[cfg(test)]
mod placing_tests;
#[cfg(test)]
mod refusal_tests;
#[cfg(test)]
mod selfrun_tests;
#[cfg(test)]
mod tests;
#[cfg(test)]
mod word_tests;

use answers::{Line, Row, answer, line_of};
use escapes::bytes_of;
use std::io;

/// The text that the next row is about, how many rows were asked, and how many of them were answered
/// otherwise.
#[derive(Drop)]
struct Asked {
    text: Vec<u8>,
    rows: u64,
    otherwise: u64,
}

impl Asked {
    fn count(&mut self, otherwise: bool) {
        self.rows = self.rows.saturating_add(1);
        self.otherwise = self.otherwise.saturating_add(u64::from(otherwise));
    }
}

/// Whether a row is answered otherwise; then it is printed, and the answer below it.
fn is_otherwise(rt: &HostRuntime, line: &str, row: &Row<'_>, text: &[u8]) -> io::Result<bool> {
    let found = answer(rt.alloc(), row, text)?;
    if found.as_str() == row.wanted {
        return Ok(false);
    }
    println!(rt; "{line}\n    is answered by {found}")?;
    Ok(true)
}

fn after_line(rt: &HostRuntime, line: &str, asked: &mut Asked) -> io::Result<()> {
    match line_of(line) {
        Line::About => {}
        Line::Text(written) => asked.text = bytes_of(rt.alloc(), written)?,
        Line::Row(row) => {
            let otherwise = is_otherwise(rt, line, &row, asked.text.as_slice())?;
            asked.count(otherwise);
        }
        Line::None => {
            println!(rt; "{line}\n    is no row")?;
            asked.count(true);
        }
    }
    Ok(())
}

fn main(rt: HostRuntime) -> io::Result<()> {
    let mut asked = Asked {
        text: Vec::new(rt.alloc()),
        rows: 0,
        otherwise: 0,
    };
    for line in rt.lines(rt.alloc()) {
        after_line(&rt, line?.as_str(), &mut asked)?;
    }
    let (rows, otherwise) = (asked.rows, asked.otherwise);
    println!(rt; "{rows} rows, {otherwise} are answered otherwise")
}
