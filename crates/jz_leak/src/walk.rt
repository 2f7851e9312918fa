//! A transformer applied to a leak.

ghost use Rattle.std.specs.Prelude.{◌≡◌, ◌++◌, pos, ◌+ℤ◌, IfOk, OnOk, slice_index};
ghost use Rattle.jz_words.specs.declared.size.Size.TheVariants.{S64};
ghost use Rattle.jz_words.specs.Words.{residue};
ghost use Rattle.jz_leak.specs.Applying.{number_of, event_of, events_for};
ghost use Rattle.jz_leak.specs.Shown.{AreEventsOf, ShowsFitting};
ghost use Rattle.jz_leak.specs.InnerWalks.{Adds, arm_walk, call_walk, choice_walk, item_walk, leak_walk, loop_of, loop_walk, rounds_walk, turn_walk, while_walk};

use crate::event::{Event, Events};
use crate::leak::{Item, Leak, Turn};
use crate::transformer::{Case, Form, Out, Tr, Transformer};
use jz_data::Seq;
use std::alloc::{AllocError, Global};

/// How far a walk came.
#[derive(Clone, Copy, PartialEq, Eq)]
pub enum Reach {
    /// To the end of its items.
    End,
    /// To a cut, or to an item that has no case of its kind.
    Stop,
}

/// The parts of the case of a `while`.
#[derive(Clone, Copy)]
pub struct LoopParts<'a> {
    pub prologue: &'a Tr,
    pub test: &'a Seq<Out>,
    pub more_outs: &'a Seq<Out>,
    pub body: &'a Tr,
    pub leave_outs: &'a Seq<Out>,
}

/// The leaked number at a place, from 0. A leak that fits has it; of another the answer is 0 where
/// there is none.
fn leaked(numbers: &[u64], place: u64) -> u64
    ensures { result ≡ slice_index numbers.now place }
{
    numbers.get(place as usize).copied().unwrap_or(0)
}

/// An offset from an address, modulo 2^64.
fn moved(address: u64, offset: i64) -> u64
    ensures { result ≡ residue S64 (pos address +ℤ offset) }
{
    address.wrapping_add_signed(offset)
}

/// The number that a form stands for.
fn number(numbers: &[u64], rsp: u64, form: Form) -> u64
    ensures { result ≡ number_of numbers.now rsp form }
{
    match form {
        Form::Num(n) => n,
        Form::Leaked(place) => leaked(numbers, place),
        Form::Frame(offset) => moved(rsp, offset),
        Form::Indexed(offset, factor, place) => {
            let scaled = factor.wrapping_mul(leaked(numbers, place));
            moved(rsp.wrapping_add(scaled), offset)
        }
    }
}

/// The event that is shown, its forms by these numbers.
fn event(numbers: &[u64], rsp: u64, out: Out) -> Event
    ensures { result ≡ event_of numbers.now rsp out }
{
    match out {
        Out::Branch(taken) => Event::Branch(taken),
        Out::Addr(address) => Event::Addr(number(numbers, rsp, address)),
        Out::Div(high, low, divisor) => Event::Div(
            number(numbers, rsp, high),
            number(numbers, rsp, low),
            number(numbers, rsp, divisor),
        ),
    }
}

/// Adds the events of a list.
fn emit(
    events: &mut Vec<Event>,
    rsp: u64,
    numbers: &Seq<u64>,
    outs: &Seq<Out>,
) -> Result<(), AllocError>
    ensures { OnOk result (events.new.items
        ≡ events.old.items ++ events_for numbers.now rsp outs.now) }
{
    for out in outs.as_slice() {
        events.push(event(numbers.as_slice(), rsp, *out))?;
    }
    Ok(())
}

/// Adds the events of the items, each by its case, up to where the walk stops.
#[cycle(walk)]
fn walk_leak(events: &mut Vec<Event>, rsp: u64, leak: &Leak, tr: &Tr) -> Result<Reach, AllocError>
    ensures { IfOk result (Adds events.old.items events.new.items
        (leak_walk rsp leak.now tr.now)) }
{
    for (i, item) in leak.items.as_slice().iter().enumerate() {
        match tr.cases.as_slice().get(i) {
            None => return Ok(Reach::Stop),
            Some(case) => {
                let reach = walk_item(events, rsp, item, case)?;
                if reach != Reach::End {
                    return Ok(reach);
                }
            }
        }
    }
    Ok(Reach::End)
}

/// Adds the events of an item by its case.
#[cycle(walk)]
fn walk_item(
    events: &mut Vec<Event>,
    rsp: u64,
    item: &Item,
    case: &Case,
) -> Result<Reach, AllocError>
    ensures { IfOk result (Adds events.old.items events.new.items
        (item_walk rsp item.now case.now)) }
{
    match item {
        Item::Cut => Ok(Reach::Stop),
        Item::Op(numbers) => match case {
            Case::Op(outs) => {
                emit(events, rsp, numbers, outs)?;
                Ok(Reach::End)
            }
            _ => Ok(Reach::Stop),
        },
        Item::If(numbers, answer, arm) => walk_choice(events, rsp, numbers, *answer, arm, case),
        Item::While(turns) => walk_while(events, rsp, turns, case),
        Item::For(rounds) => match case {
            Case::For(trs) => walk_rounds(events, rsp, rounds, trs),
            _ => Ok(Reach::Stop),
        },
        Item::Call(numbers, callee, results_numbers) => {
            walk_call(events, rsp, numbers, callee, results_numbers, case)
        }
    }
}

/// The events of an `if`: its condition's, and then the list and the arm of the answer.
#[cycle(walk)]
fn walk_choice(
    events: &mut Vec<Event>,
    rsp: u64,
    numbers: &Seq<u64>,
    answer: bool,
    arm: &Leak,
    case: &Case,
) -> Result<Reach, AllocError>
    ensures { IfOk result (Adds events.old.items events.new.items
        (choice_walk rsp numbers.now answer arm.now case.now)) }
{
    match case {
        Case::If {
            test,
            then_outs,
            then_tr,
            else_outs,
            else_tr,
        } => {
            emit(events, rsp, numbers, test)?;
            if answer {
                walk_arm(events, rsp, numbers, then_outs, arm, then_tr)
            } else {
                walk_arm(events, rsp, numbers, else_outs, arm, else_tr)
            }
        }
        _ => Ok(Reach::Stop),
    }
}

/// The events of a `while`, its turns by the parts of its case.
#[cycle(walk)]
fn walk_while(
    events: &mut Vec<Event>,
    rsp: u64,
    turns: &Seq<Turn>,
    case: &Case,
) -> Result<Reach, AllocError>
    ensures { IfOk result (Adds events.old.items events.new.items
        (loop_walk rsp turns.now case.now)) }
{
    match case {
        Case::While {
            prologue,
            test,
            more_outs,
            body,
            leave_outs,
        } => walk_turns(
            events,
            rsp,
            turns,
            &LoopParts {
                prologue,
                test,
                more_outs,
                body,
                leave_outs,
            },
        ),
        _ => Ok(Reach::Stop),
    }
}

/// The events of a call: its arguments', the callee's, and its results' where the callee ends.
#[cycle(walk)]
fn walk_call(
    events: &mut Vec<Event>,
    rsp: u64,
    numbers: &Seq<u64>,
    callee: &Leak,
    results_numbers: &Seq<u64>,
    case: &Case,
) -> Result<Reach, AllocError>
    ensures { IfOk result (Adds events.old.items events.new.items
        (call_walk rsp numbers.now callee.now results_numbers.now case.now)) }
{
    match case {
        Case::Call {
            arguments,
            body,
            results,
        } => {
            let reach = walk_arm(events, rsp, numbers, arguments, callee, body)?;
            if reach == Reach::End {
                emit(events, rsp, results_numbers, results)?;
            }
            Ok(reach)
        }
        _ => Ok(Reach::Stop),
    }
}

/// The events of a list, and then those of a leak.
#[cycle(walk)]
fn walk_arm(
    events: &mut Vec<Event>,
    rsp: u64,
    numbers: &Seq<u64>,
    outs: &Seq<Out>,
    leak: &Leak,
    tr: &Tr,
) -> Result<Reach, AllocError>
    ensures { IfOk result (Adds events.old.items events.new.items
        (arm_walk rsp numbers.now outs.now leak.now tr.now)) }
{
    emit(events, rsp, numbers, outs)?;
    walk_leak(events, rsp, leak, tr)
}

/// The events of a `for`: each round by its own tree.
#[cycle(walk)]
fn walk_rounds(
    events: &mut Vec<Event>,
    rsp: u64,
    rounds: &Seq<Leak>,
    trs: &Seq<Tr>,
) -> Result<Reach, AllocError>
    ensures { IfOk result (Adds events.old.items events.new.items
        (rounds_walk rsp rounds.now trs.now)) }
{
    for (i, round) in rounds.as_slice().iter().enumerate() {
        match trs.as_slice().get(i) {
            None => return Ok(Reach::Stop),
            Some(tr) => {
                let reach = walk_leak(events, rsp, round, tr)?;
                if reach != Reach::End {
                    return Ok(reach);
                }
            }
        }
    }
    Ok(Reach::End)
}

/// The events of a `while`: each turn by the same parts.
#[cycle(walk)]
fn walk_turns(
    events: &mut Vec<Event>,
    rsp: u64,
    turns: &Seq<Turn>,
    parts: &LoopParts<'_>,
) -> Result<Reach, AllocError>
    ensures { IfOk result (Adds events.old.items events.new.items
        (while_walk rsp turns.now (loop_of parts.now))) }
{
    for turn in turns.as_slice() {
        let reach = walk_turn(events, rsp, turn, parts)?;
        if reach != Reach::End {
            return Ok(reach);
        }
    }
    Ok(Reach::End)
}

/// The events of a turn: the prologue's, the condition's, and then the list and the body of a turn
/// that is taken, or the list of leaving.
#[cycle(walk)]
fn walk_turn(
    events: &mut Vec<Event>,
    rsp: u64,
    turn: &Turn,
    parts: &LoopParts<'_>,
) -> Result<Reach, AllocError>
    ensures { IfOk result (Adds events.old.items events.new.items
        (turn_walk rsp turn.now (loop_of parts.now))) }
{
    let reach = walk_leak(events, rsp, &turn.prologue, parts.prologue)?;
    if reach != Reach::End {
        return Ok(reach);
    }
    emit(events, rsp, &turn.numbers, parts.test)?;
    if turn.more {
        walk_arm(
            events,
            rsp,
            &turn.numbers,
            parts.more_outs,
            &turn.body,
            parts.body,
        )
    } else {
        emit(events, rsp, &turn.numbers, parts.leave_outs)?;
        Ok(Reach::End)
    }
}

/// The events of the whole function; those behind the body are shown where the walk came to its
/// end.
pub(crate) fn walk_transformer(
    alloc: Global,
    tr: &Transformer,
    leak: &Leak,
    rsp: u64,
) -> Result<Events, AllocError>
    ensures { IfOk result (AreEventsOf tr.now leak.now rsp) }
{
    let mut events = Vec::new(alloc);
    let none = Seq::new(alloc);
    emit(&mut events, rsp, &none, &tr.before)?;
    let reach = walk_leak(&mut events, rsp, leak, &tr.body)?;
    if reach == Reach::End {
        emit(&mut events, rsp, &none, &tr.after)?;
    }
    Ok(Seq::from_vec(events))
}

/// The events that a transformer gives of a leak that fits it, with a stack pointer at entry. The
/// depth of the recursion is that of the leak, which is bounded by the nesting of the text.
pub fn apply(alloc: Global, tr: &Transformer, leak: &Leak, rsp: u64) -> Result<Events, AllocError>
    requires { ShowsFitting tr.now leak.now }
    ensures { IfOk result (AreEventsOf tr.now leak.now rsp) }
{
    walk_transformer(alloc, tr, leak, rsp)
}
