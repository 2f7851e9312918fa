//! The steps of a machine, up to its end.

ghost use Rattle.std.specs.Prelude.{◌≡◌, ◌++◌, false, IfOk, OnOk};
ghost use Rattle.x64_machine.specs.MachineRuns.{code_of, base_of, config_of, SameCode};
ghost use Rattle.x64_machine.specs.Steps.{events_of, steps_of};
ghost use Rattle.jasminc_steps.specs.Stepping.{Finishes};

use jz_data::Seq;
use jz_leak::{Event, Events};
use std::alloc::{AllocError, Global};
use x64_insn::{FaultKind, StepLeak};
use x64_machine::{Machine, Step};

/// How a run ended.
#[derive(Drop)]
pub enum Finish {
    /// The code returned, after so many steps with these events.
    Ended { steps: u64, events: Events },
    /// It was still running after all the steps, with these events.
    Cut(Events),
    /// A step faulted.
    Faulted(FaultKind),
}

/// The events of a step: branch, access, division.
fn push_events(events: &mut Vec<Event>, leak: StepLeak) -> Result<(), AllocError>
    ensures { OnOk result (events.new.items ≡ events.old.items ++ events_of leak) }
{
    if let Some(taken) = leak.branch {
        events.push(Event::Branch(taken))?;
    }
    if let Some(address) = leak.addr {
        events.push(Event::Addr(address))?;
    }
    if let Some((high, low, divisor)) = leak.div {
        events.push(Event::Div(high, low, divisor))?;
    }
    Ok(())
}

/// Up to so many steps, to the end of the code.
pub fn run_to_end(alloc: Global, machine: &mut Machine, limit: u64) -> Result<Finish, AllocError>
    requires { (config_of machine.old).ended ≡ false }
    ensures { IfOk result (Finishes (code_of machine.old) (base_of machine.old)
        (config_of machine.old) limit (config_of machine.new)) }
{
    let mut events = Vec::new(alloc);
    for made in 0..limit {
        let (answer, leak) = machine.step();
        push_events(&mut events, leak)?;
        match answer {
            Step::Running => {}
            Step::Ended => {
                return Ok(Finish::Ended {
                    steps: made + 1,
                    events: Seq::from_vec(events),
                });
            }
            Step::Fault(fault) => return Ok(Finish::Faulted(fault)),
        }
    }
    Ok(Finish::Cut(Seq::from_vec(events)))
}
