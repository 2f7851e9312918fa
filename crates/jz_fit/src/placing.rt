//! A place for each variable of code with branches and loops, or why one has none.

ghost use Rattle.std.specs.Prelude.{◌≡◌, ◌<◌, ◌^◌, Some, map, length, IfOk, IfErr};
ghost use Rattle.std.specs.List.{All};
ghost use Rattle.jz_data.specs.Failures.{IfRefused};
ghost use Rattle.jz_ir.specs.Order.{number_of};
ghost use Rattle.jz_ir.specs.Places.{IsWithin, IsPlacing, FirstFit, all_of};
ghost use Rattle.jz_alloc.specs.Fit.{IsSeat};
ghost use Rattle.jz_alloc.specs.Answers.{IsEvidence};
ghost use Rattle.jz_fit.specs.Branches.{code_of, LiveAt};
ghost use Rattle.jz_fit.specs.InnerSeats.{IsTable};
ghost use Rattle.jz_fit.specs.InnerAnswers.{IsAnswer};

use crate::code::Branching;
use crate::fit::{Fit, place_all};
use crate::holders::holders_of;
use crate::needs::needs_of;
use crate::table::{Table, table_of};
use crate::wants::place_order;
use jz_alloc::{NoPlace, Places};
use jz_data::{Failure, Seq};
use jz_ir::place_of;
use std::alloc::{AllocError, Global};

/// The number of each variable's place, or why one has none.
#[derive(Drop)]
pub(crate) enum Allocation {
    Places(Vec<Option<u8>>),
    NoPlace(NoPlace),
}

/// First fit, and the evidence of its refusal.
fn answer(alloc: Global, table: &Table<'_>) -> Result<Allocation, AllocError>
    requires table { IsTable table.now }
    requires count { length table.now.code.now.kinds < 2 ^ 32 }
    ensures { IfOk result (IsAnswer table.now) }
{
    let order = place_order(alloc, table.wants.as_slice())?;
    match place_all(alloc, table, order.as_slice())? {
        Fit::Placed(places) => Ok(Allocation::Places(places)),
        Fit::Refused(variable, places) => {
            let needs = needs_of(alloc, table.ops.as_slice(), variable)?;
            let holders = holders_of(alloc, table, places.as_slice(), variable)?;
            Ok(Allocation::NoPlace(NoPlace {
                variable,
                needs,
                holders,
            }))
        }
    }
}

/// The places of these numbers.
fn seats(alloc: Global, numbers: &[Option<u8>]) -> Result<Places, AllocError>
    requires { All IsSeat numbers.now }
    ensures { IfOk result (λ places. map (λ p. Some (number_of p)) places ≡ numbers.now) }
{
    let mut places = Seq::new(alloc);
    for number in numbers {
        match *number {
            Some(number) => places.push(place_of(number))?,
            None => unreachable!(),
        }
    }
    Ok(places)
}

/// A place for each variable: the variables with needs first, then the others, each in the order of
/// declaration, take the first place that they can have. Or the first that is left without one, and
/// why. The time goes with the length of the code where the variables are set before they are read;
/// no more than a few lists of what is live are ever held for an operation.
pub fn allocate(alloc: Global, code: &Branching) -> Result<Places, Failure<NoPlace>>
    requires within { IsWithin (code_of code.now) }
    requires count { length code.now.kinds < 2 ^ 32 }
    ensures first { IfOk result (λ places. FirstFit (code_of code.now).ops code.now.kinds
        code.now.in_use (LiveAt code.now) (all_of places)) }
    ensures rule { IfOk result (λ places. IsPlacing (code_of code.now) (LiveAt code.now) places) }
    ensures evidence { IfErr result (λ failure. IfRefused failure
        (λ refusal. IsEvidence (code_of code.now) (LiveAt code.now) refusal)) }
{
    let table = table_of(alloc, code)?;
    match answer(alloc, &table)? {
        Allocation::Places(numbers) => Ok(seats(alloc, numbers.as_slice())?),
        Allocation::NoPlace(refusal) => Err(Failure::Refused(refusal)),
    }
}
