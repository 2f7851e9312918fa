//! The run of an export function on items.

ghost use Rattle.std.specs.Prelude.{◌≡◌, ◌<◌, IfOk, length};
ghost use Rattle.jz_tree.specs.Failures.{IfAnswered};
ghost use Rattle.jasminc_interp.specs.Runs.{refusal_of};
ghost use Rattle.jasminc_interp.specs.InnerRuns.{IsExportAt, IsReady, RunsAt, FunctionAnswers};

use crate::refused::Refused;
use crate::telling::{Ran, tell};
use jasminc_calls::{Called, Unfit, called_on};
use jasminc_source::function_at;
use jz_inputs::memory_of;
use jz_interp::{Input, interpret};
use jz_items::Item;
use jz_tree::{Failure, Seq};
use jz_types::Typed;
use std::alloc::{AllocError, Global};

/// Items on which a function is not run, as a refusal.
fn refusal_of(failure: Failure<Unfit>) -> Failure<Refused>
    ensures { result ≡ refusal_of failure }
{
    match failure {
        Failure::Refused(Unfit::Items) => Failure::Refused(Refused::Items),
        Failure::Refused(Unfit::Unmet(pre)) => Failure::Refused(Refused::Unmet(pre)),
        Failure::OutOfMemory => Failure::OutOfMemory,
    }
}

/// The run of the function at that place, with at most so many turns, in a memory of exactly the
/// bytes of its regions.
fn run(
    alloc: Global,
    typed: &Typed,
    place: usize,
    items: &Seq<Item>,
    called: Called,
    fuel: u64,
) -> Result<Ran, AllocError>
    requires there { place < length typed.now.program.funs }
    requires ready { IsReady typed.now.program place items.now called }
    ensures { IfOk result (RunsAt typed.now.program place items.now fuel) }
{
    let tree = typed.program();
    let function = function_at(&tree.funs, place);
    let Called { words, bits, pres } = called;
    let mem = memory_of(alloc, function, &bits, items, &pres)?;
    let input = Input { words, mem };
    let outcome = interpret(alloc, typed, place, &input, fuel)?;
    tell(alloc, function, &bits, &pres, &outcome, fuel)
}

/// The run of the export function at that place on items, where there are as many as it has
/// parameters and they meet its preconditions.
pub fn run_function(
    alloc: Global,
    typed: &Typed,
    place: usize,
    items: &Seq<Item>,
    fuel: u64,
) -> Result<Ran, Failure<Refused>>
    requires there { place < length typed.now.program.funs }
    requires exported { IsExportAt typed.now.program place }
    ensures { IfAnswered result (FunctionAnswers typed.now.program place items.now fuel) }
{
    let tree = typed.program();
    let function = function_at(&tree.funs, place);
    match called_on(alloc, function, items) {
        Ok(called) => {
            let ran = run(alloc, typed, place, items, called, fuel)?;
            Ok(ran)
        }
        Err(failure) => Err(refusal_of(failure)),
    }
}
