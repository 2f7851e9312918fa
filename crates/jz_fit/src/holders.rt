//! What keeps a variable from its places.

ghost use Rattle.std.specs.Prelude.{◌≡◌, ◌↔◌, ℕ, ◌<◌, List, [], ◌∷◌, ◌++◌, length, IfOk, IsTrue, MatchOption};
ghost use Rattle.jz_bits.specs.Has.{has};
ghost use Rattle.jz_ir.specs.Places.{meets};
ghost use Rattle.jz_alloc.specs.Answers.{HoldsEach};
ghost use Rattle.jz_fit.specs.Branches.{LiveAt};
ghost use Rattle.jz_fit.specs.InnerSeats.{IsTable};
ghost use Rattle.jz_fit.specs.InnerHolding.{SeatIs, IsFirstSeated, IsSeatedIf, IsEarlier, IsLower};
ghost use Rattle.jz_fit.specs.InnerHolding.{WhoAt, IsHeld, IsFirstHolder, TellsLive};

use crate::spots::is_among;
use crate::table::{Table, holds};
use jz_alloc::Holder;
use jz_bits::Bits;
use jz_data::Seq;
use jz_ir::{Op, place_of};
use jz_live_lists::live_of;
use std::alloc::{AllocError, Global};

/// Whether the variable has the place.
fn has_seat(places: &[Option<u8>], variable: u32, place: u8) -> bool
    ensures { IsTrue result ↔ SeatIs places.now variable place }
{
    match places.get(variable as usize) {
        Some(Some(number)) => *number == place,
        Some(None) => false,
        None => false,
    }
}

/// The lower of the variable and the one that there is.
fn earlier(first: Option<u32>, variable: u32) -> u32
    ensures { IsEarlier first variable result }
{
    match first {
        None => variable,
        Some(other) => { if other < variable { other } else { variable } }
    }
}

/// The first declared that has the place, where one variable comes behind those that were asked.
fn next_seated(first: Option<u32>, variable: u32, places: &[Option<u8>], place: u8) -> Option<u32>
    ensures { (front : List ℕ) → IsFirstSeated front places.now place first
        → IsFirstSeated (front ++ variable ∷ []) places.now place result }
{
    if !has_seat(places, variable, place) {
        return first;
    }
    let lowest = earlier(first, variable);
    Some(lowest)
}

/// The first declared of the variables that have the place.
fn first_seated(variables: &Seq<u32>, places: &[Option<u8>], place: u8) -> Option<u32>
    ensures { IsFirstSeated variables.now places.now place result }
{
    let mut first = None;
    for variable in variables.as_slice() {
        first = next_seated(first, *variable, places, place);
    }
    first
}

/// The first declared of the variables that have the place, where that is asked.
fn seated_if(asked: bool, variables: &Seq<u32>, places: &[Option<u8>], place: u8) -> Option<u32>
    ensures { IsSeatedIf asked variables.now places.now place result }
{
    if !asked {
        return None;
    }
    let first = first_seated(variables, places, place);
    first
}

/// The lower of those that there are.
fn lower(one: Option<u32>, other: Option<u32>) -> Option<u32>
    ensures { IsLower one other result }
{
    match one {
        None => other,
        Some(first) => {
            let lowest = earlier(other, first);
            Some(lowest)
        }
    }
}

/// What keeps the variable from the place at one operation.
fn who_at(
    op: &Op,
    after: &Seq<u32>,
    places: &[Option<u8>],
    variable: u32,
    place: u8,
) -> Option<Option<u32>>
    ensures { WhoAt op.now after.now places.now variable place result }
{
    let is_written = is_among(&op.writes, variable);
    let is_live = is_among(after, variable);
    let behind = seated_if(is_written, after, places, place);
    let beside = seated_if(is_live, &op.writes, places, place);
    match lower(behind, beside) {
        Some(holder) => return Some(Some(holder)),
        None => {}
    }
    if is_live && !is_written && holds(op.fixed.as_slice(), place) {
        return Some(None);
    }
    None
}

/// What first keeps the variable from the place; none where nothing does.
fn holder_of(
    table: &Table<'_>,
    after: &[Seq<u32>],
    places: &[Option<u8>],
    variable: u32,
    place: u8,
) -> Option<Holder>
    requires tells { TellsLive table.now places.now variable after.now }
    requires place { place < 20 }
    ensures { MatchOption result
        (IsHeld table.now.ops (LiveAt table.now.code.now) places.now variable place → ⊥)
        (IsFirstHolder table.now.ops (LiveAt table.now.code.now) places.now variable place) }
{
    let ops = table.ops.as_slice();
    for i in 0..ops.len() {
        match who_at(&ops[i], &after[i], places, variable, place) {
            None => {}
            Some(holder) => {
                return Some(Holder {
                    place: place_of(place),
                    variable: holder,
                    span: ops[i].span,
                });
            }
        }
    }
    None
}

/// The variable, and each that has a place.
fn followed(alloc: Global, places: &[Option<u8>], variable: u32) -> Result<Bits, AllocError>
    requires { variable < length places.now }
    ensures own { IfOk result (λ row. IsTrue (has row variable)) }
    ensures others { IfOk result
        (λ row. (u q : ℕ) → SeatIs places.now u q → IsTrue (has row u)) }
{
    let mut row = Bits::new(alloc, places.len())?;
    for other in 0..places.len() {
        if places[other].is_some() {
            row.insert(other);
        }
    }
    row.insert(variable as usize);
    Ok(row)
}

/// What is live after each operation, of the variable and of those that have places.
fn lives_of(
    alloc: Global,
    table: &Table<'_>,
    places: &[Option<u8>],
    variable: u32,
) -> Result<Vec<Seq<u32>>, AllocError>
    requires table { IsTable table.now }
    requires variable { variable < length places.now }
    ensures { IfOk result (λ after. TellsLive table.now places.now variable after.items) }
{
    let row = followed(alloc, places, variable)?;
    let after = live_of(alloc, &table.code.nodes, &row)?;
    Ok(after)
}

/// One holder for each place that meets the needs of the variable.
pub(crate) fn holders_of(
    alloc: Global,
    table: &Table<'_>,
    places: &[Option<u8>],
    variable: u32,
) -> Result<Seq<Holder>, AllocError>
    requires table { IsTable table.now }
    requires places { length places.now ≡ length table.now.code.now.kinds }
    requires variable { variable < length places.now }
    requires held { (q : ℕ) → q < 20 → IsTrue (meets table.now.code.now.kinds
        table.now.code.now.in_use table.now.ops variable q)
        → (IsHeld table.now.ops (LiveAt table.now.code.now) places.now variable q → ⊥) → ⊥ }
    ensures { IfOk result (HoldsEach table.now.ops (LiveAt table.now.code.now) places.now variable
        (meets table.now.code.now.kinds table.now.code.now.in_use table.now.ops variable) 20) }
{
    let after = lives_of(alloc, table, places, variable)?;
    let mut holders = Vec::new(alloc);
    for place in 0..20u8 {
        if table.meets(variable as usize, place) {
            match holder_of(table, after.as_slice(), places, variable, place) {
                Some(holder) => holders.push(holder)?,
                None => unreachable!(),
            }
        }
    }
    Ok(Seq::from_vec(holders))
}
