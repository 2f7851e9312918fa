//! Runs of compiled code on the machine.

ghost use Rattle.std.specs.Prelude.{◌≡◌, ◌≤◌, IfOk, All};
ghost use Rattle.jz_preconditions.specs.Stating.{preconditions_of};
ghost use Rattle.jz_inputs.specs.Held.{IsHeld};
ghost use Rattle.jasminc_starts.specs.Memories.{most_frame, StandApart};
ghost use Rattle.jasminc_starts.specs.Starting.{IsSafe};
ghost use Rattle.jasminc_runs.specs.Running.{RunsTo};

use crate::starting::{Input, loaded};
use crate::telling::{Ran, run_text};
use jasminc_steps::{Finish, cut_text, run_to_end};
use jz_listing::Compiled;
use std::alloc::{AllocError, Global};

/// The run of a compiled function on items, with at most so many steps.
pub fn run_compiled(
    alloc: Global,
    compiled: &Compiled,
    input: Input<'_>,
    fuel: u64,
) -> Result<Ran, AllocError>
    requires small { compiled.now.frame ≤ most_frame }
    requires stated { input.pres.now ≡ preconditions_of input.function.now }
    requires held { All (IsHeld input.function.now input.words.now input.items.now)
        input.pres.now }
    requires apart { StandApart input.items.now }
    requires safe { IsSafe compiled.now input.function.now input.words.now input.items.now }
    ensures { IfOk result (RunsTo compiled.now input.entry.function.now input.entry.words.now
        input.entry.items.now fuel) }
{
    let mut machine = loaded(alloc, compiled, input)?;
    let finish = run_to_end(alloc, &mut machine, fuel)?;
    match finish {
        Finish::Ended { steps, events } => {
            let text = run_text(alloc, compiled, input, &machine, &events, steps)?;
            Ok(Ran::Ended(text))
        }
        Finish::Cut(events) => {
            let text = cut_text(alloc, &events, fuel)?;
            Ok(Ran::Cut(text))
        }
        Finish::Faulted(_) => unreachable!(),
    }
}
