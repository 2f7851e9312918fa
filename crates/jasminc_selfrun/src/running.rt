//! Runs of compiled code that are summed up.

ghost use Rattle.std.specs.Prelude.{◌≡◌, ◌≤◌, IfOk, All};
ghost use Rattle.jz_preconditions.specs.Stating.{preconditions_of};
ghost use Rattle.jz_inputs.specs.Held.{IsHeld};
ghost use Rattle.jasminc_starts.specs.Memories.{most_frame, StandApart};
ghost use Rattle.jasminc_starts.specs.Starting.{IsSafe};
ghost use Rattle.jasminc_lines.specs.Lines.{cut_line};
ghost use Rattle.jasminc_selfrun.specs.Running.{RunsTo};

use crate::summing::{Origin, summary_text};
use jasminc_lines::write_cut;
use jasminc_runs::{Input, Ran, loaded};
use jasminc_steps::{Finish, run_to_end};
use jz_io::Bytes;
use jz_listing::Compiled;
use std::alloc::{AllocError, Global};

/// That a run was cut, and nothing of its events.
fn cut_text(alloc: Global, fuel: u64) -> Result<Bytes, AllocError>
    ensures { IfOk result (λ text. text ≡ cut_line fuel) }
{
    let mut text = Vec::new(alloc);
    write_cut(&mut text, fuel)?;
    Ok(Bytes::from_vec(text))
}

/// The summary of the run of a compiled function on items, with at most so many steps.
pub(crate) fn run_summed(
    alloc: Global,
    origin: Origin,
    compiled: &Compiled,
    input: Input<'_>,
    fuel: u64,
) -> Result<Ran, AllocError>
    requires small { compiled.now.frame ≤ most_frame }
    requires stated { input.pres.now ≡ preconditions_of input.function.now }
    requires held { All (IsHeld input.function.now input.words.now input.items.now)
        input.pres.now }
    requires apart { StandApart input.items.now }
    requires safe { IsSafe compiled.now input.function.now input.words.now input.items.now }
    ensures { IfOk result (RunsTo origin compiled.now input.entry.function.now
        input.entry.words.now input.entry.items.now fuel) }
{
    let mut machine = loaded(alloc, compiled, input)?;
    let finish = run_to_end(alloc, &mut machine, fuel)?;
    match finish {
        Finish::Ended { steps, events } => {
            let text = summary_text(alloc, origin, compiled, &machine.state, &events, steps)?;
            Ok(Ran::Ended(text))
        }
        Finish::Cut(events) => {
            drop(events);
            let text = cut_text(alloc, fuel)?;
            Ok(Ran::Cut(text))
        }
        Finish::Faulted(_) => unreachable!(),
    }
}
