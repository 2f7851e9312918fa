//! The transformer of a compiled function, applied to what its source leaks.

ghost use Rattle.std.specs.Prelude.{◌≡◌, ◌<◌, IfOk, length};
ghost use Rattle.jz_tree.specs.Failures.{IfAnswered};
ghost use Rattle.jz_leak.specs.Shown.{ShowsFitting, AreEventsOf};
ghost use Rattle.jz_meaning.specs.Runs.{FunOutcome};
ghost use Rattle.jz_interp.specs.Outcomes.{Shows};
ghost use Rattle.jz_items.specs.Items.{AreItems};
ghost use Rattle.jasminc_steps.specs.Starting.{return_slot};
ghost use Rattle.jasminc_leaks.specs.Leaking.{end_text, Tells, FitsOutcome, LeaksAt};
ghost use Rattle.jasminc_leaks.specs.Leaking.{IsRunnableAt, LeakAnswers};
ghost use Rattle.jasminc_leaks.specs.InnerLeaking.{LeaksFitting, IsReady};

use jasminc_calls::{Called, Unfit, called_on};
use jasminc_runs::{Ran, is_short};
use jasminc_source::function_at;
use jasminc_steps::{RETURN_SLOT, cut_text, write_events};
use jz_inputs::memory_of;
use jz_interp::{Input, Outcome, interpret};
use jz_io::Bytes;
use jz_items::Item;
use jz_leak::{Events, Leak, Transformer, apply};
use jz_listing::Compiled;
use jz_tree::{Failure, Seq};
use jz_types::Typed;
use std::alloc::{AllocError, Global};

fn end_text(alloc: Global, events: &Events) -> Result<Bytes, AllocError>
    ensures { IfOk result (λ text. text ≡ end_text events.now) }
{
    let mut text = Vec::new(alloc);
    write_events(alloc, &mut text, events)?;
    text.extend_from_slice(b"end\n")?;
    Ok(Bytes::from_vec(text))
}

/// The events that a transformer gives of a leak, from the stack pointer at entry of `exec`.
fn events_of(alloc: Global, transformer: &Transformer, leak: &Leak) -> Result<Events, AllocError>
    requires { ShowsFitting transformer.now leak.now }
    ensures { IfOk result (AreEventsOf transformer.now leak.now return_slot) }
{
    apply(alloc, transformer, leak, RETURN_SLOT)
}

/// The text of what a run with so many turns leaked, by a transformer.
fn shown(
    alloc: Global,
    transformer: &Transformer,
    outcome: &Outcome,
    fuel: u64,
) -> Result<Ran, AllocError>
    requires { LeaksFitting transformer.now outcome.now }
    ensures { IfOk result (λ ran. (out : FunOutcome) → Shows out outcome.now
        → FitsOutcome transformer.now out → Tells transformer.now fuel out ran) }
{
    match outcome {
        Outcome::End(_, _, leak) => {
            let events = events_of(alloc, transformer, leak)?;
            let text = end_text(alloc, &events)?;
            Ok(Ran::Ended(text))
        }
        Outcome::Cut(leak) => {
            let events = events_of(alloc, transformer, leak)?;
            let text = cut_text(alloc, &events, fuel)?;
            Ok(Ran::Cut(text))
        }
        Outcome::Stuck(_) => unreachable!(),
    }
}

/// What the function at that place shows, in a memory of exactly the bytes of its regions.
fn leaked(
    alloc: Global,
    typed: &Typed,
    place: usize,
    compiled: &Compiled,
    items: &Seq<Item>,
    called: Called,
    fuel: u64,
) -> Result<Ran, AllocError>
    requires there { place < length typed.now.program.funs }
    requires ready { IsReady typed.now.program place compiled.now items.now called }
    ensures { IfOk result (LeaksAt typed.now.program place compiled.now items.now fuel) }
{
    let tree = typed.program();
    let function = function_at(&tree.funs, place);
    let Called { words, bits, pres } = called;
    let mem = memory_of(alloc, function, &bits, items, &pres)?;
    let input = Input { words, mem };
    let outcome = interpret(alloc, typed, place, &input, fuel)?;
    shown(alloc, &compiled.tr, &outcome, fuel)
}

/// What a compiled export function, which stands at that place of the text, shows on items: its
/// transformer applied to the leakage of the source's run with at most so many turns.
pub fn leak_function(
    alloc: Global,
    typed: &Typed,
    place: usize,
    compiled: &Compiled,
    items: &Seq<Item>,
    fuel: u64,
) -> Result<Ran, Failure<Unfit>>
    requires there { place < length typed.now.program.funs }
    requires given { AreItems items.now }
    requires runnable { IsRunnableAt typed.now.program place compiled.now }
    ensures { IfAnswered result
        (LeakAnswers typed.now.program place compiled.now items.now fuel) }
{
    let tree = typed.program();
    let function = function_at(&tree.funs, place);
    is_short(compiled.code.as_slice());
    match called_on(alloc, function, items) {
        Ok(called) => {
            let ran = leaked(alloc, typed, place, compiled, items, called, fuel)?;
            Ok(ran)
        }
        Err(failure) => Err(failure),
    }
}
