//! The answer of a row that is a function.

ghost use Rattle.std.specs.Prelude.{◌<◌, ◌^◌, length};
ghost use Rattle.jz_ir.specs.Places.{IsWithin};
ghost use Rattle.jz_place.specs.Bodies.{seen_code};

use crate::answers::{add_places, add_refusal, all_places, kinds_of};
use crate::fitting::block_fits;
use crate::functions::{Read, function_of};
use crate::instructions::add_code;
use crate::names::{letter_of, name_of};
use jz_data::{Failure, Seq};
use jz_ir::{Need, Op, are_below};
use jz_live_lists::flat_ops;
use jz_operations::Places;
use jz_place::{Ir, branching, place, places_of};
use std::alloc::{AllocError, Global};
use x64_insn::Place;

fn add_letters(text: &mut String, letters: &[u8], numbers: &Seq<u32>) -> Result<(), AllocError> {
    for number in numbers.as_slice() {
        text.push(letter_of(letters, *number))?;
    }
    Ok(())
}

/// `!rdx,cf`, or nothing.
fn add_fixed(text: &mut String, places: &Seq<Place>) -> Result<(), AllocError> {
    let mut before = '!';
    for place in places.as_slice() {
        text.push(before)?;
        text.push_str(name_of(*place))?;
        before = ',';
    }
    Ok(())
}

/// `@x=rax,y=rcx`, or nothing.
fn add_needs(text: &mut String, letters: &[u8], needs: &Seq<Need>) -> Result<(), AllocError> {
    let mut before = '@';
    for need in needs.as_slice() {
        text.push(before)?;
        text.push(letter_of(letters, need.variable))?;
        text.push('=')?;
        text.push_str(name_of(need.place))?;
        before = ',';
    }
    Ok(())
}

fn add_op(text: &mut String, letters: &[u8], op: &Op) -> Result<(), AllocError> {
    text.push(' ')?;
    add_letters(text, letters, &op.reads)?;
    text.push('>')?;
    add_letters(text, letters, &op.writes)?;
    add_fixed(text, &op.fixed)?;
    add_needs(text, letters, &op.needs)
}

fn add_seen(text: &mut String, letters: &[u8], ops: &[Op]) -> Result<(), AllocError> {
    text.push_str(" seen")?;
    for op in ops {
        add_op(text, letters, op)?;
    }
    text.push(';')
}

/// The instructions, where each cell has a displacement.
fn add_placed(
    alloc: Global,
    text: &mut String,
    ir: &Ir,
    places: &Places<'_>,
) -> Result<(), AllocError> {
    if !block_fits(places, &ir.body) {
        return text.push_str("; no displacement");
    }
    let placed = place(alloc, ir, places)?;
    add_code(alloc, text, placed)
}

fn add_answer(
    alloc: Global,
    text: &mut String,
    letters: &[u8],
    ir: &Ir,
    slots: &[u32],
) -> Result<(), AllocError>
    requires within { IsWithin (seen_code ir.now) }
    requires count { length ir.now.kinds < 2 ^ 32 }
{
    match places_of(alloc, ir) {
        Ok(places) => {
            add_places(text, &places)?;
            let places = Places {
                places: places.as_slice(),
                slots,
            };
            add_placed(alloc, text, ir, &places)
        }
        Err(Failure::Refused(refusal)) => add_refusal(alloc, text, letters, &refusal),
        Err(Failure::OutOfMemory) => Err(AllocError),
    }
}

/// What is seen, and where the function names no other variables its places and instructions.
fn add_checked(
    alloc: Global,
    text: &mut String,
    letters: &[u8],
    ir: &Ir,
    slots: &[u32],
) -> Result<(), AllocError> {
    let code = branching(alloc, ir)?;
    let ops = flat_ops(alloc, &code.nodes)?;
    add_seen(text, letters, ops.as_slice())?;
    let count = ir.kinds.len();
    if count >= 64 {
        return Ok(());
    }
    if !are_below(ops.as_slice(), count) {
        return Ok(());
    }
    add_answer(alloc, text, letters, ir, slots)
}

/// What is seen of each operation, the places, and the instructions.
pub fn function_answer(alloc: Global, letters: &[u8], rest: &str) -> Result<String, AllocError> {
    let Read {
        entry,
        body,
        results,
        slots,
    } = function_of(alloc, letters, rest)?;
    let ir = Ir {
        entry,
        body,
        results,
        kinds: kinds_of(alloc, letters)?,
        in_use: all_places(alloc)?,
    };
    let mut text = String::new(alloc);
    add_checked(alloc, &mut text, letters, &ir, slots.as_slice())?;
    Ok(text)
}
