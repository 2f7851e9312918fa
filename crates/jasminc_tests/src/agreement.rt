//! `interp` and `exec` end with the same results and regions, and what the bytes show is the printed
//! transformer applied to the leak of the source.

use crate::commands::{Ran, WIDE, push_words, run};
use jasminc_top::Status;
use std::alloc::{AllocError, Global};

/// The answer of a command on a function and its items, where it has status 0.
fn answer_of<'a>(
    alloc: Global,
    command: &'a str,
    asked: &'a str,
    text: &[u8],
) -> Result<Option<Vec<u8>>, AllocError> {
    let mut words = vec![in alloc; "jasminc", command, "add.jazz"]?;
    push_words(&mut words, asked)?;
    let Ran {
        status,
        written,
        ..
    } = run(alloc, words.as_slice(), text, &WIDE)?;
    Ok((status == Status::Ok).then_some(written))
}

/// What stands between a text's beginning and its end.
fn between<'a>(text: &'a [u8], begin: &[u8], end: &[u8]) -> Option<&'a [u8]> {
    let rest = text.strip_prefix(begin)?;
    rest.strip_suffix(end)
}

/// A line `end K` with the number of steps.
fn is_end_of_steps(line: &[u8]) -> bool {
    match between(line, b"end ", b"\n") {
        Some(digits) => !digits.is_empty() && digits.iter().all(|digit| digit.is_ascii_digit()),
        None => false,
    }
}

/// Whether a run of the bytes shows the events, counts its steps, and ends with the results.
fn is_run(machine: &[u8], source: &[u8], shown: &[u8]) -> Option<bool> {
    let results = between(source, b"end\n", b"")?;
    let events = between(shown, b"", b"end\n")?;
    between(machine, events, results).map(is_end_of_steps)
}

/// `yes` where the three commands agree on a function and its items; else `no`.
pub fn agreement(alloc: Global, asked: &str, text: &[u8]) -> Result<&'static str, AllocError> {
    let source = answer_of(alloc, "interp", asked, text)?;
    let machine = answer_of(alloc, "exec", asked, text)?;
    let shown = answer_of(alloc, "leak", asked, text)?;
    let (Some(source), Some(machine), Some(shown)) = (source, machine, shown) else {
        return Ok("no");
    };
    let agree = is_run(machine.as_slice(), source.as_slice(), shown.as_slice());
    Ok(if agree == Some(true) { "yes" } else { "no" })
}
