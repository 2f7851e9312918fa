//! Words, numbers of leaks, and limits.

use jz_limits::Limit;
use jz_meaning::{Item, Leak, Stuck, Turn, Why};
use jz_tree::{Seq, Span};
use jz_words::Word;
use std::alloc::AllocError;

/// The words at an end.
pub fn words(all: &Seq<Word>, out: &mut String) -> Result<(), AllocError> {
    out.push_str("end")?;
    for word in all.as_slice() {
        write!(out, " {}", word.bits())?;
    }
    out.push_str(" ;")
}

/// Numbers, each with a blank before.
pub fn numbers(all: &Seq<u64>, out: &mut String) -> Result<(), AllocError> {
    for number in all.as_slice() {
        write!(out, " {number}")?;
    }
    Ok(())
}

#[cycle(leak)]
fn turn(of: &Turn, out: &mut String) -> Result<(), AllocError> {
    leak(&of.prologue, out)?;
    numbers(&of.numbers, out)?;
    leak(&of.body, out)
}

#[cycle(leak)]
fn item(of: &Item, out: &mut String) -> Result<(), AllocError> {
    match of {
        Item::Op(all) => numbers(all, out),
        Item::If(all, _, arm) => {
            numbers(all, out)?;
            leak(arm, out)
        }
        Item::While(turns) => {
            for one in turns.as_slice() {
                turn(one, out)?;
            }
            Ok(())
        }
        Item::For(rounds) => {
            for round in rounds.as_slice() {
                leak(round, out)?;
            }
            Ok(())
        }
        Item::Call(all, body, results) => {
            numbers(all, out)?;
            leak(body, out)?;
            numbers(results, out)
        }
        Item::Cut => Ok(()),
    }
}

/// All numbers of a leak, one after another.
#[cycle(leak)]
pub fn leak(of: &Leak, out: &mut String) -> Result<(), AllocError> {
    for one in of.items.as_slice() {
        item(one, out)?;
    }
    Ok(())
}

fn why_text(why: Why) -> &'static str {
    match why {
        Why::Bounds => "Bounds",
        Why::Address => "Address",
        Why::Align => "Align",
        Why::Init => "Init",
        Why::Divide => "Divide",
    }
}

/// Where a run is stuck, and why.
pub fn stuck(found: Stuck, out: &mut String) -> Result<(), AllocError> {
    let Stuck { span, why } = found;
    write!(out, "stuck {}:{} {} ;", span.line, span.col, why_text(why))
}

/// A word and a place.
pub fn at(word: &str, place: Span, out: &mut String) -> Result<(), AllocError> {
    write!(out, "{word} {}:{}", place.line, place.col)
}

/// A limit that is passed.
pub fn limit(found: Limit, out: &mut String) -> Result<(), AllocError> {
    match found {
        Limit::Expand => out.push_str("Expand"),
        Limit::InlineWidth(span) => at("InlineWidth", span, out),
        Limit::IndexRange(span) => at("IndexRange", span, out),
        Limit::ImmRange(span) => at("ImmRange", span, out),
    }
}
