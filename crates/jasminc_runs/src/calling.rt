//! Runs of compiled export functions on items.

ghost use Rattle.std.specs.Prelude.{◌<◌, ◌^◌, length};
ghost use Rattle.jz_tree.specs.Failures.{IfAnswered};
ghost use Rattle.jz_tree.specs.declared.program.Program.{Program};
ghost use Rattle.jz_items.specs.Items.{AreItems};
ghost use Rattle.jasminc_runs.specs.Calling.{IsRunnable, ExecAnswers};

use crate::running::run_compiled;
use crate::starting::Input;
use crate::telling::Ran;
use jasminc_calls::{Unfit, called_on};
use jz_items::Item;
use jz_listing::Compiled;
use jz_tree::{Failure, Fun, Seq};
use std::alloc::Global;

/// Code in memory is no longer than this, so it has room where `exec` puts it.
pub fn is_short(code: &[u8])
    ensures { length code.now < 2 ^ 63 }
{}

/// The run of a compiled export function on items, with at most so many steps, where there are as
/// many items as it has parameters and they meet its preconditions.
pub fn run_function(
    alloc: Global,
    function: &Fun,
    compiled: &Compiled,
    items: &Seq<Item>,
    fuel: u64,
) -> Result<Ran, Failure<Unfit>>
    requires given { AreItems items.now }
    requires runnable { (p : Program) × IsRunnable p function.now compiled.now }
    ensures { IfAnswered result (ExecAnswers function.now compiled.now items.now fuel) }
{
    is_short(compiled.code.as_slice());
    match called_on(alloc, function, items) {
        Ok(called) => {
            let input = Input {
                function,
                words: &called.bits,
                items,
                pres: &called.pres,
            };
            let ran = run_compiled(alloc, compiled, input, fuel)?;
            Ok(ran)
        }
        Err(failure) => Err(failure),
    }
}
