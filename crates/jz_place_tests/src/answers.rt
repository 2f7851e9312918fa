//! The answer of a row of code.

ghost use Rattle.std.specs.Prelude.{◌<◌, ◌^◌, length};
ghost use Rattle.jz_ir.specs.Places.{IsWithin};
ghost use Rattle.jz_fit.specs.Branches.{code_of};

use crate::names::{PLACES, letter_of, name_of};
use crate::reading::code_of;
use jz_alloc::{Holder, Needed, NoPlace};
use jz_bits::Bits;
use jz_data::{Failure, Seq};
use jz_fit::{Branching, allocate};
use jz_ir::{Kind, Node, are_below};
use jz_live_lists::{flat_ops, live, live_of};
use std::alloc::{AllocError, Global};
use x64_insn::Place;

pub fn kinds_of(alloc: Global, letters: &[u8]) -> Result<Seq<Kind>, AllocError> {
    let mut kinds = Seq::new(alloc);
    for letter in letters {
        if letter.is_ascii_uppercase() {
            kinds.push(Kind::Flag)?;
        } else {
            kinds.push(Kind::Word)?;
        }
    }
    Ok(kinds)
}

pub fn all_places(alloc: Global) -> Result<Seq<Place>, AllocError> {
    let mut places = Seq::new(alloc);
    for (_, place) in PLACES {
        places.push(place)?;
    }
    Ok(places)
}

fn is_among(variables: &Seq<u32>, variable: u32) -> bool {
    for other in variables.as_slice() {
        if *other == variable {
            return true;
        }
    }
    false
}

/// The letters of what is live, in the order of declaration.
fn add_letters(text: &mut String, letters: &[u8], row: &Seq<u32>) -> Result<(), AllocError> {
    text.push(' ')?;
    if row.is_empty() {
        text.push('-')?;
    }
    let mut number: u32 = 0;
    for letter in letters {
        if is_among(row, number) {
            text.push(char::from(*letter))?;
        }
        number = number.saturating_add(1);
    }
    Ok(())
}

fn add_live(text: &mut String, letters: &[u8], rows: &[Seq<u32>]) -> Result<(), AllocError> {
    text.push_str(" live")?;
    for row in rows {
        add_letters(text, letters, row)?;
    }
    text.push(';')
}

/// Every second variable.
fn every_second(alloc: Global, count: usize) -> Result<Bits, AllocError> {
    let mut followed = Bits::new(alloc, count)?;
    for number in 0..count {
        if number % 2 == 0 {
            followed.insert(number);
        }
    }
    Ok(followed)
}

/// Whether the one list has those of the other that are followed.
fn is_part(part: &Seq<u32>, row: &Seq<u32>, followed: &Bits, count: u32) -> bool {
    for variable in 0..count {
        let wanted = is_among(row, variable) && followed.contains(variable as usize);
        if is_among(part, variable) != wanted {
            return false;
        }
    }
    true
}

/// Tells where liveness of some variables alone is otherwise.
fn add_followed(
    alloc: Global,
    text: &mut String,
    letters: &[u8],
    nodes: &Seq<Node>,
    rows: &[Seq<u32>],
) -> Result<(), AllocError> {
    let followed = every_second(alloc, letters.len())?;
    let parts = live_of(alloc, nodes, &followed)?;
    for (part, row) in parts.as_slice().iter().zip(rows) {
        if !is_part(part, row, &followed, 64) {
            text.push_str(" (otherwise where some are followed)")?;
        }
    }
    Ok(())
}

pub fn add_places(text: &mut String, places: &Seq<Place>) -> Result<(), AllocError> {
    text.push_str(" at")?;
    for place in places.as_slice() {
        text.push(' ')?;
        text.push_str(name_of(*place))?;
    }
    Ok(())
}

fn add_needs(alloc: Global, text: &mut String, needs: &Seq<Needed>) -> Result<(), AllocError> {
    text.push_str(" needs")?;
    if needs.is_empty() {
        text.push_str(" -")?;
    }
    for Needed { place, span } in needs.as_slice() {
        let name = name_of(*place);
        let line = span.line;
        text.push_str(format!(in alloc; " {name}#{line}")?.as_str())?;
    }
    Ok(())
}

fn add_holders(
    alloc: Global,
    text: &mut String,
    letters: &[u8],
    holders: &Seq<Holder>,
) -> Result<(), AllocError> {
    text.push_str(" held")?;
    if holders.is_empty() {
        text.push_str(" -")?;
    }
    for Holder {
        place,
        variable,
        span,
    } in holders.as_slice() {
        let name = name_of(*place);
        let line = span.line;
        let who = match *variable {
            Some(number) => letter_of(letters, number),
            None => '*',
        };
        text.push_str(format!(in alloc; " {name}={who}#{line}")?.as_str())?;
    }
    Ok(())
}

pub fn add_refusal(
    alloc: Global,
    text: &mut String,
    letters: &[u8],
    refusal: &NoPlace,
) -> Result<(), AllocError> {
    text.push_str(" no ")?;
    text.push(letter_of(letters, refusal.variable))?;
    add_needs(alloc, text, &refusal.needs)?;
    add_holders(alloc, text, letters, &refusal.holders)
}

fn add_answer(
    alloc: Global,
    text: &mut String,
    letters: &[u8],
    code: &Branching,
) -> Result<(), AllocError>
    requires within { IsWithin (code_of code.now) }
    requires count { length code.now.kinds < 2 ^ 32 }
{
    match allocate(alloc, code) {
        Ok(places) => add_places(text, &places),
        Err(Failure::Refused(refusal)) => add_refusal(alloc, text, letters, &refusal),
        Err(Failure::OutOfMemory) => Err(AllocError),
    }
}

/// The places, or why there are none, where the code names no other variables.
fn add_checked(
    alloc: Global,
    text: &mut String,
    letters: &[u8],
    code: &Branching,
) -> Result<(), AllocError> {
    let ops = flat_ops(alloc, &code.nodes)?;
    let count = code.kinds.len();
    if count >= 64 {
        return Ok(());
    }
    if !are_below(ops.as_slice(), count) {
        return Ok(());
    }
    add_answer(alloc, text, letters, code)
}

/// What is live after each operation, and the places.
pub fn code_answer(alloc: Global, letters: &[u8], rest: &str) -> Result<String, AllocError> {
    let code = Branching {
        nodes: code_of(alloc, letters, rest)?,
        kinds: kinds_of(alloc, letters)?,
        in_use: all_places(alloc)?,
    };
    let mut text = String::new(alloc);
    let rows = live(alloc, &code.nodes)?;
    add_live(&mut text, letters, rows.as_slice())?;
    add_followed(alloc, &mut text, letters, &code.nodes, rows.as_slice())?;
    add_checked(alloc, &mut text, letters, &code)?;
    Ok(text)
}
