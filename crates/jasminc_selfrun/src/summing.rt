//! The summary of a run of a program that was made of a number.

ghost use Rattle.std.specs.Prelude.{◌≡◌, ◌++◌, IfOk, OnOk, length, map};
ghost use Rattle.std.specs.List.{concat};
ghost use Rattle.jasminc_selfrun.specs.Summary.{origin_line, number_line, value_line, ct_line};
ghost use Rattle.jasminc_selfrun.specs.Summary.{summary_text};

use jasminc_lines::write_quadword;
use jz_data::Seq;
use jz_io::{Bytes, Ct};
use jz_leak::Events;
use jz_listing::{Arg, Compiled, write_ct};
use jz_text::write_number;
use std::alloc::{AllocError, Global};
use x64_insn::State;

/// What a program was made of, and how large it is.
#[derive(Clone, Copy)]
pub struct Origin {
    pub seed: u32,
    /// How many statements were asked for.
    pub size: u32,
    /// How many statements its function has in expanded order.
    pub statements: usize,
}

#[tactic(auto, unfolding(crate::specs::Summary::origin_line))]
fn write_origin(text: &mut Vec<u8>, origin: Origin) -> Result<(), AllocError>
    ensures { OnOk result (text.new.items ≡ text.old.items ++ origin_line origin) }
{
    text.extend_from_slice(b"seed ")?;
    write_number(text, u64::from(origin.seed))?;
    text.extend_from_slice(b" size ")?;
    write_number(text, u64::from(origin.size))?;
    text.extend_from_slice(b"\n")
}

#[tactic(auto, unfolding(crate::specs::Summary::number_line))]
fn write_named(text: &mut Vec<u8>, name: &str, number: u64) -> Result<(), AllocError>
    ensures { OnOk result (text.new.items ≡ text.old.items ++ number_line name.now number) }
{
    text.extend_from_slice(name.as_bytes())?;
    text.extend_from_slice(b" ")?;
    write_number(text, number)?;
    text.extend_from_slice(b"\n")
}

/// The number in the register of a result.
#[tactic(auto, unfolding(crate::specs::Summary::value_line))]
fn write_value(
    alloc: Global,
    text: &mut Vec<u8>,
    state: &State,
    ret: &Arg,
) -> Result<(), AllocError>
    ensures { OnOk result (text.new.items ≡ text.old.items ++ value_line state.now ret.now) }
{
    text.extend_from_slice(b"result ")?;
    write_quadword(alloc, text, state.reg(ret.reg))?;
    text.extend_from_slice(b"\n")
}

fn write_values(
    alloc: Global,
    text: &mut Vec<u8>,
    state: &State,
    rets: &Seq<Arg>,
) -> Result<(), AllocError>
    ensures { OnOk result (text.new.items
        ≡ text.old.items ++ concat (map (value_line state.now) rets.now)) }
{
    for ret in rets.as_slice() {
        write_value(alloc, text, state, ret)?;
    }
    Ok(())
}

#[tactic(auto, unfolding(crate::specs::Summary::ct_line))]
fn write_ct_line(text: &mut Vec<u8>, ct: &Ct) -> Result<(), AllocError>
    ensures { OnOk result (text.new.items ≡ text.old.items ++ ct_line ct.now) }
{
    text.extend_from_slice(b"ct ")?;
    write_ct(text, ct)?;
    text.extend_from_slice(b"\n")
}

/// What is summed up of a run that ended in a state, after so many steps with these events.
pub(crate) fn summary_text(
    alloc: Global,
    origin: Origin,
    compiled: &Compiled,
    state: &State,
    events: &Events,
    steps: u64,
) -> Result<Bytes, AllocError>
    ensures { IfOk result (λ text. text
        ≡ summary_text origin compiled.now state.now events.now steps) }
{
    let mut text = Vec::new(alloc);
    write_origin(&mut text, origin)?;
    write_named(&mut text, "statements", origin.statements as u64)?;
    write_named(&mut text, "insns", compiled.insns)?;
    write_named(&mut text, "steps", steps)?;
    write_named(&mut text, "events", events.len() as u64)?;
    write_values(alloc, &mut text, state, &compiled.rets)?;
    write_ct_line(&mut text, &compiled.ct)?;
    Ok(Bytes::from_vec(text))
}
