//! Why a variable has no place.

ghost use Rattle.std.specs.Prelude.{◌≡◌, ℕ, ◌+◌, ◌*◌, ◌/◌, ◌<◌, ◌^◌, ◌||◌, ◌&&◌, length, IfOk, MatchOption, IsTrue, ◌↔◌, slice_index_or, Some, None, ◌==◌};
ghost use Rattle.jz_bits.specs.Has.{has};
ghost use Rattle.jz_ir.specs.Paths.{among};
ghost use Rattle.jz_alloc.specs.InnerHolding.{LiveIn, IsHeld, WhoAt, VarAt, FirstVarAt};
ghost use Rattle.jz_alloc.specs.InnerAnswers.{IsFirstHolder};

use crate::tables::holds;
use jz_bits::Bits;
use jz_data::Seq;
use jz_io::Span;
use jz_ir::{Op, place_of};
use std::alloc::{AllocError, Global};
use x64_insn::Place;

/// What keeps a variable from a place, and where: a variable, or without one a fixed write.
#[derive(Clone, Copy)]
pub struct Holder {
    pub place: Place,
    pub variable: Option<u32>,
    pub span: Span,
}

/// The variables in the place.
fn held_row(alloc: Global, places: &[Option<u8>], place: u8) -> Result<Bits, AllocError>
    ensures wide { IfOk result (λ row. length row ≡ length places.now / 64 + 1) }
    ensures set { IfOk result (λ row. (variable : ℕ)
        → IsTrue (has row variable) ↔ (slice_index_or places.now variable None ≡ Some place)) }
{
    let mut row = Bits::new(alloc, places.len())?;
    for (variable, seat) in places.iter().enumerate() {
        if let Some(number) = *seat {
            if number == place {
                row.insert(variable);
            }
        }
    }
    Ok(row)
}

fn is_among(variables: &Seq<u32>, variable: u32) -> bool
    ensures { result ≡ among variables.now variable }
{
    for other in variables.as_slice() {
        if *other == variable {
            return true;
        }
    }
    false
}

/// The first variable in both rows.
fn first_common(first: &Bits, second: &Bits, count: u32) -> Option<u32>
    ensures { MatchOption result
        ((v : ℕ) → v < count → IsTrue (has first.now v) → IsTrue (has second.now v) → ⊥)
        (λ v. (v < count) × IsTrue (has first.now v) × IsTrue (has second.now v)) }
{
    for variable in 0..count {
        if first.contains(variable as usize) && second.contains(variable as usize) {
            return Some(variable);
        }
    }
    None
}

/// The first of the variables that is in the row.
fn first_in(variables: &Seq<u32>, row: &Bits) -> Option<u32>
    ensures { MatchOption result
        ((v : ℕ) → IsTrue (among variables.now v) → IsTrue (has row.now v) → ⊥)
        (λ v. IsTrue (among variables.now v) × IsTrue (has row.now v)) }
{
    for variable in variables.as_slice() {
        if row.contains(*variable as usize) {
            return Some(*variable);
        }
    }
    None
}

/// The first variable of the row that conflicts with the variable at an operation, where `found` is
/// one.
fn first_conflicting(op: &Op, after: &Bits, held: &Bits, variable: u32, found: u32) -> u32
    requires { VarAt op.now after.now held.now variable found }
    ensures { FirstVarAt op.now after.now held.now variable result }
{
    let is_written = is_among(&op.writes, variable);
    let is_live = after.contains(variable as usize);
    for other in 0..found {
        let conflicts = is_live && is_among(&op.writes, other)
            || is_written && after.contains(other as usize);
        if conflicts && held.contains(other as usize) {
            return other;
        }
    }
    found
}

/// What keeps the variable from the place at one operation.
fn who_at(
    op: &Op,
    after: &Bits,
    held: &Bits,
    count: u32,
    variable: u32,
    place: u8,
) -> Option<Option<u32>>
    requires { (other : ℕ) → IsTrue (has held.now other) → other < count }
    ensures { WhoAt op.now after.now held.now variable place result }
{
    if is_among(&op.writes, variable) {
        if let Some(other) = first_common(after, held, count) {
            return Some(Some(first_conflicting(op, after, held, variable, other)));
        }
    }
    if after.contains(variable as usize) {
        if let Some(other) = first_in(&op.writes, held) {
            return Some(Some(first_conflicting(op, after, held, variable, other)));
        }
        if holds(op.fixed.as_slice(), place) && !is_among(&op.writes, variable) {
            return Some(None);
        }
    }
    None
}

/// What first keeps the variable from the place; none where the place is free.
pub fn holder_of(
    alloc: Global,
    ops: &[Op],
    after: &[Bits],
    places: &[Option<u8>],
    variable: u32,
    place: u8,
) -> Result<Option<Holder>, AllocError>
    requires rows { length after.now ≡ length ops.now }
    requires vars { length places.now < 2 ^ 32 }
    requires place { place < 20 }
    ensures { IfOk result (λ found. MatchOption found
        (IsHeld ops.now after.now places.now variable place → ⊥)
        (IsFirstHolder ops.now (LiveIn after.now) places.now variable place)) }
{
    let held = held_row(alloc, places, place)?;
    for i in 0..ops.len() {
        if let Some(holder) = who_at(
            &ops[i],
            &after[i],
            &held,
            places.len() as u32,
            variable,
            place,
        ) {
            return Ok(Some(Holder {
                place: place_of(place),
                variable: holder,
                span: ops[i].span,
            }));
        }
    }
    Ok(None)
}
