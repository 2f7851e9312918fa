//! The text of a run of compiled code.

ghost use Rattle.std.specs.Prelude.{◌≡◌, IfOk, All};
ghost use Rattle.jz_preconditions.specs.Stating.{preconditions_of};
ghost use Rattle.jz_preconditions.specs.Meeting.{IsBelowEnd, names_of, regions_of};
ghost use Rattle.x64_machine.specs.MachineRuns.{config_of};
ghost use Rattle.jasminc_runs.specs.Telling.{run_text};

use crate::starting::Input;
use jasminc_regions::write_regions;
use jasminc_steps::{write_events, write_results};
use jz_io::Bytes;
use jz_leak::Events;
use jz_listing::Compiled;
use jz_text::write_number;
use std::alloc::{AllocError, Global};
use x64_machine::Machine;

/// The text of a run.
#[derive(Drop)]
pub enum Ran {
    /// The code returned.
    Ended(Bytes),
    /// It was still running after all the steps.
    Cut(Bytes),
}

/// The text of a run that ended: the events, the number of steps, the results and the regions.
pub fn run_text(
    alloc: Global,
    compiled: &Compiled,
    input: Input<'_>,
    machine: &Machine,
    events: &Events,
    steps: u64,
) -> Result<Bytes, AllocError>
    requires below_end { All IsBelowEnd (regions_of (names_of input.function.now) input.pres.now
        input.words.now) }
    requires stated { input.pres.now ≡ preconditions_of input.function.now }
    ensures { IfOk result (λ text. text ≡ run_text compiled.now input.entry.function.now
        input.entry.words.now (config_of machine.now) events.now steps) }
{
    let mut text = Vec::new(alloc);
    write_events(alloc, &mut text, events)?;
    text.extend_from_slice(b"end ")?;
    write_number(&mut text, steps)?;
    text.extend_from_slice(b"\n")?;
    write_results(alloc, &mut text, &machine.state, &compiled.rets)?;
    write_regions(
        alloc,
        &mut text,
        input.function,
        input.words,
        &machine.mem.map,
        input.pres,
    )?;
    Ok(Bytes::from_vec(text))
}
