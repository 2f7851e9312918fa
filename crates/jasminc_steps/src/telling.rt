//! The lines of a run: its events, its results, and where it was cut.

ghost use Rattle.std.specs.Prelude.{◌≡◌, ◌++◌, map, IfOk, OnOk};
ghost use Rattle.std.specs.List.{concat};
ghost use Rattle.jasminc_steps.specs.Telling.{event_line, result_line, cut_text};

use jasminc_lines::{write_cut, write_quadword, write_result};
use jz_data::Seq;
use jz_io::Bytes;
use jz_leak::{Event, Events};
use jz_listing::Arg;
use std::alloc::{AllocError, Global};
use x64_insn::State;

fn write_event(alloc: Global, text: &mut Vec<u8>, event: Event) -> Result<(), AllocError>
    ensures { OnOk result (text.new.items ≡ text.old.items ++ event_line event) }
{
    match event {
        Event::Branch(taken) => {
            text.extend_from_slice(b"branch ")?;
            text.extend_from_slice(if taken { b"1" } else { b"0" })?;
        }
        Event::Addr(address) => {
            text.extend_from_slice(b"addr ")?;
            write_quadword(alloc, text, address)?;
        }
        Event::Div(high, low, divisor) => {
            text.extend_from_slice(b"div ")?;
            write_quadword(alloc, text, high)?;
            text.extend_from_slice(b" ")?;
            write_quadword(alloc, text, low)?;
            text.extend_from_slice(b" ")?;
            write_quadword(alloc, text, divisor)?;
        }
    }
    text.extend_from_slice(b"\n")
}

/// A result, by its register in the state.
fn write_result_of(
    alloc: Global,
    text: &mut Vec<u8>,
    state: &State,
    result_in: &Arg,
) -> Result<(), AllocError>
    ensures { OnOk result (text.new.items ≡ text.old.items ++ result_line state.now result_in.now) }
{
    let value = state.reg(result_in.reg);
    write_result(alloc, text, result_in.name.as_str(), result_in.size, value)
}

/// A line for each event.
pub fn write_events(alloc: Global, text: &mut Vec<u8>, events: &Events) -> Result<(), AllocError>
    ensures { OnOk result (text.new.items ≡ text.old.items ++ concat (map event_line events.now)) }
{
    for event in events.as_slice() {
        write_event(alloc, text, *event)?;
    }
    Ok(())
}

/// A line for each result, by its register in the state.
pub fn write_results(
    alloc: Global,
    text: &mut Vec<u8>,
    state: &State,
    rets: &Seq<Arg>,
) -> Result<(), AllocError>
    ensures { OnOk result (text.new.items ≡
        text.old.items ++ concat (map (result_line state.now) rets.now)) }
{
    for ret in rets.as_slice() {
        write_result_of(alloc, text, state, ret)?;
    }
    Ok(())
}

/// The text of a run that was cut: the events so far, and after how many steps.
pub fn cut_text(alloc: Global, events: &Events, fuel: u64) -> Result<Bytes, AllocError>
    ensures { IfOk result (λ text. text ≡ cut_text events.now fuel) }
{
    let mut text = Vec::new(alloc);
    write_events(alloc, &mut text, events)?;
    write_cut(&mut text, fuel)?;
    Ok(Bytes::from_vec(text))
}
