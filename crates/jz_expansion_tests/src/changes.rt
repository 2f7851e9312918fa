//! The steps of a change.

use jz_change::{Change, Number, Numbers, Seq, Step};
use std::alloc::AllocError;

fn number(found: &Number, out: &mut String) -> Result<(), AllocError> {
    match found {
        Number::Nth(place) => write!(out, "{place}"),
        Number::Fixed(fixed) => write!(out, "={fixed}"),
    }
}

/// The places of the numbers that are left of an item.
fn item(left: &Numbers, out: &mut String) -> Result<(), AllocError> {
    match left {
        Numbers::Same => out.push_str("(=)"),
        Numbers::These(left) => {
            out.push_str("(")?;
            for (i, one) in left.as_slice().iter().enumerate() {
                if i > 0 {
                    out.push_str(" ")?;
                }
                number(one, out)?;
            }
            out.push_str(")")
        }
    }
}

fn operations(items: &Seq<Numbers>, out: &mut String) -> Result<(), AllocError> {
    out.push_str("op")?;
    for one in items.as_slice() {
        item(one, out)?;
    }
    Ok(())
}

#[cycle(steps)]
fn step(of: &Step, out: &mut String) -> Result<(), AllocError> {
    match of {
        Step::Ops(items) => operations(items, out),
        Step::If {
            test,
            then_part,
            else_part,
            ..
        } => {
            out.push_str("if")?;
            item(test, out)?;
            braced("", then_part, out)?;
            braced("", else_part, out)
        }
        Step::While {
            prologue,
            test,
            body,
            ..
        } => {
            braced("while", prologue, out)?;
            item(test, out)?;
            braced("", body, out)
        }
        Step::For(body) => braced("for", body, out),
        Step::Arm { answer, part, .. } => {
            write!(out, "{answer}")?;
            braced("", part, out)
        }
        Step::Once { prologue, .. } => braced("once", prologue, out),
        Step::Unrolled(rounds) => all_rounds(rounds, out),
        Step::Opened { .. } => out.push_str("call"),
    }
}

/// The steps of a change in braces, behind a word.
#[cycle(steps)]
fn braced(word: &str, of: &Change, out: &mut String) -> Result<(), AllocError> {
    out.push_str(word)?;
    out.push_str("{")?;
    steps(of, out)?;
    out.push_str("}")
}

/// The steps of each round; of many rounds how many there are.
#[cycle(steps)]
fn all_rounds(rounds: &Seq<Change>, out: &mut String) -> Result<(), AllocError> {
    if rounds.len() > 1000 {
        return write!(out, "{} rounds", rounds.len());
    }
    out.push_str("rounds")?;
    for round in rounds.as_slice() {
        out.push_str("{")?;
        steps(round, out)?;
        out.push_str("}")?;
    }
    Ok(())
}

/// The steps of a change, with blanks between.
#[cycle(steps)]
pub fn steps(of: &Change, out: &mut String) -> Result<(), AllocError> {
    for (i, one) in of.steps.as_slice().iter().enumerate() {
        if i > 0 {
            out.push_str(" ")?;
        }
        step(one, out)?;
    }
    Ok(())
}
