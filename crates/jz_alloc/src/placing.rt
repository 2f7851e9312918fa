//! A place for each variable, or why one has none.

ghost use Rattle.std.specs.Prelude.{◌≡◌, ℕ, ◌/◌, ◌<◌, ◌^◌, length, IfOk, IfErr, IsTrue, None};
ghost use Rattle.std.specs.List.{All};
ghost use Rattle.jz_data.specs.Failures.{IfRefused};
ghost use Rattle.jz_ir.specs.Straight.{LiveIn};
ghost use Rattle.jz_ir.specs.Places.{Below, IsWithin, IsPlacing, FirstFit, all_of};
ghost use Rattle.jz_alloc.specs.Tables.{AllWide, row_has};
ghost use Rattle.jz_alloc.specs.InnerHolding.{LiveIn as LiveInRows, IsHeld};
ghost use Rattle.jz_alloc.specs.Answers.{HoldsEach, IsEvidence};
ghost use Rattle.jz_alloc.specs.InnerAnswers.{Allocated};

use crate::evidence::{Holder, holder_of};
use crate::fit::{Fit, place_all};
use crate::needs::{Needed, needs_of};
use crate::order::place_order;
use crate::seats::seats;
use crate::tables::{meets_rows, taken_rows, write_rows};
use jz_bits::Bits;
use jz_data::{Failure, Seq};
use jz_ir::{Code, Kind, Op};
use jz_live::live_after;
use std::alloc::{AllocError, Global};
use x64_insn::Place;

/// The first variable without a place, all its needs, and what holds each place that meets them.
#[derive(Drop)]
pub struct NoPlace {
    pub variable: u32,
    pub needs: Seq<Needed>,
    pub holders: Seq<Holder>,
}

/// The place of each variable.
pub type Places = Seq<Place>;

/// The number of each variable's place, or why one has none.
#[derive(Drop)]
pub enum Allocation {
    Places(Vec<Option<u8>>),
    NoPlace(NoPlace),
}

/// One holder for each place that meets the needs of the variable.
fn holders_of(
    alloc: Global,
    ops: &[Op],
    after: &[Bits],
    meets: &[Bits],
    places: &[Option<u8>],
    variable: u32,
) -> Result<Seq<Holder>, AllocError>
    requires rows { length after.now ≡ length ops.now }
    requires meets { length meets.now ≡ 20 }
    requires vars { length places.now < 2 ^ 32 }
    requires held { (place : ℕ) → place < 20 → IsTrue (row_has meets.now place variable)
        → (IsHeld ops.now after.now places.now variable place → ⊥) → ⊥ }
    ensures { IfOk result (λ holders. HoldsEach ops.now (LiveInRows after.now) places.now variable
        (λ place. row_has meets.now place variable) 20 holders) }
{
    let mut holders = Vec::new(alloc);
    for place in 0..20u8 {
        if meets[place as usize].contains(variable as usize) {
            match holder_of(alloc, ops, after, places, variable, place)? {
                Some(holder) => holders.push(holder)?,
                None => unreachable!(),
            }
        }
    }
    Ok(Seq::from_vec(holders))
}

/// Over rows that say what is live after each operation.
fn allocate_rows(
    alloc: Global,
    ops: &[Op],
    after: &[Bits],
    kinds: &[Kind],
    in_use: &[Place],
) -> Result<Allocation, AllocError>
    requires below { All (Below (length kinds.now)) ops.now }
    requires rows { length after.now ≡ length ops.now }
    requires wide { AllWide (length kinds.now) after.now }
    requires vars { length kinds.now < 2 ^ 32 }
    ensures { IfOk result (Allocated ops.now kinds.now in_use.now (LiveInRows after.now)) }
{
    let meets = meets_rows(alloc, ops, kinds, in_use)?;
    let taken = taken_rows(alloc, ops, after, kinds.len())?;
    let rows = write_rows(alloc, ops, after, kinds.len())?;
    let order = place_order(alloc, ops, kinds.len() as u32)?;
    match place_all(
        alloc,
        order.as_slice(),
        meets.as_slice(),
        taken,
        rows.as_slice(),
    )? {
        Fit::Placed(places) => Ok(Allocation::Places(places)),
        Fit::Refused(variable, places) => {
            let holders = holders_of(
                alloc,
                ops,
                after,
                meets.as_slice(),
                places.as_slice(),
                variable,
            )?;
            let needs = needs_of(alloc, ops, variable)?;
            Ok(Allocation::NoPlace(NoPlace {
                variable,
                needs,
                holders,
            }))
        }
    }
}

/// Over the paths of code without branches.
fn allocate_straight(
    alloc: Global,
    ops: &[Op],
    kinds: &[Kind],
    in_use: &[Place],
) -> Result<Allocation, AllocError>
    requires below { All (Below (length kinds.now)) ops.now }
    requires vars { length kinds.now < 2 ^ 32 }
    ensures { IfOk result (Allocated ops.now kinds.now in_use.now (LiveIn ops.now)) }
{
    let after = live_after(alloc, ops, kinds.len())?;
    let allocation = allocate_rows(alloc, ops, after.as_slice(), kinds, in_use)?;
    Ok(allocation)
}

/// A place for each variable of code without branches: the variables with needs first, then the
/// others, each in the order of declaration, take the first place that they can have. Or the first
/// that is left without one, and why.
pub fn allocate(alloc: Global, code: &Code) -> Result<Places, Failure<NoPlace>>
    requires within { IsWithin code.now }
    requires count { length code.now.kinds < 2 ^ 32 }
    ensures first { IfOk result (λ places. FirstFit code.now.ops code.now.kinds code.now.in_use
        (LiveIn code.now.ops) (all_of places)) }
    ensures rule { IfOk result (λ places. IsPlacing code.now (LiveIn code.now.ops) places) }
    ensures evidence { IfErr result (λ failure. IfRefused failure
        (λ refusal. IsEvidence code.now (LiveIn code.now.ops) refusal)) }
{
    let ops = code.ops.as_slice();
    match allocate_straight(alloc, ops, code.kinds.as_slice(), code.in_use.as_slice())? {
        Allocation::Places(numbers) => Ok(seats(alloc, numbers.as_slice())?),
        Allocation::NoPlace(refusal) => Err(Failure::Refused(refusal)),
    }
}
