//! The summed-up run of a compiled export function on items.

ghost use Rattle.jz_tree.specs.Failures.{IfAnswered};
ghost use Rattle.jz_tree.specs.declared.program.Program.{Program};
ghost use Rattle.jz_items.specs.Items.{AreItems};
ghost use Rattle.jasminc_runs.specs.Calling.{IsRunnable};
ghost use Rattle.jasminc_selfrun.specs.Calling.{SumAnswers};

use crate::running::run_summed;
use crate::summing::Origin;
use jasminc_calls::{Unfit, called_on};
use jasminc_runs::{Input, Ran, is_short};
use jz_items::Item;
use jz_listing::Compiled;
use jz_tree::{Failure, Fun, Seq};
use std::alloc::Global;

/// The summary of the run of a compiled export function on items, with at most so many steps, where
/// there are as many items as it has parameters and they meet its preconditions.
pub(crate) fn sum_function(
    alloc: Global,
    origin: Origin,
    function: &Fun,
    compiled: &Compiled,
    items: &Seq<Item>,
    fuel: u64,
) -> Result<Ran, Failure<Unfit>>
    requires given { AreItems items.now }
    requires runnable { (p : Program) × IsRunnable p function.now compiled.now }
    ensures { IfAnswered result (SumAnswers origin function.now compiled.now items.now fuel) }
{
    is_short(compiled.code.as_slice());
    match called_on(alloc, function, items) {
        Ok(called) => {
            let input = Input {
                function,
                words: &called.bits,
                items,
                pres: &called.pres,
            };
            let ran = run_summed(alloc, origin, compiled, input, fuel)?;
            Ok(ran)
        }
        Err(failure) => Err(failure),
    }
}
