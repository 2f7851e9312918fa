//! How far the lines of a listing have come.

ghost use Rattle.std.specs.Prelude.{◌≡◌, IfOk};
ghost use Rattle.jz_listing_read.specs.InnerStates.{Took, at, blank, interface, machine, outside};
ghost use Rattle.jz_listing_read.specs.InnerStates.{start, take, verdict, whole, with_arg};
ghost use Rattle.jz_listing_read.specs.InnerStates.{with_pre, with_ret};

use jz_data::Failure;
use jz_io::{Bytes, Ct};
use jz_leak::{Seq, Text, Tr, Transformer};
use jz_listing::{Arg, Compiled, Pre};
use jz_listing_lines::Line;
use std::alloc::{AllocError, Global};

/// Which line comes next.
#[derive(Clone, Copy, PartialEq, Eq)]
pub enum Stage {
    /// The first line of all.
    First,
    /// A function's first line, or no more.
    Outside,
    /// A parameter, a result, a precondition or the frame.
    Interface,
    Saved,
    Insns,
    Code,
    Leakage,
    Ct,
    End,
}

/// The functions that are whole, and what is known of the one that is not. What is not known yet of
/// it is none, 0 or yes.
#[derive(Drop)]
pub struct State {
    pub stage: Stage,
    pub done: Seq<Compiled>,
    pub fun: Compiled,
}

/// No listing goes on with the line.
#[derive(Clone, Copy)]
pub struct Unfit;

pub type Stop = Failure<Unfit>;

const UNFIT: Stop = Failure::Refused(Unfit);

/// A function of which the name is known.
fn blank(alloc: Global, name: Text) -> Compiled
    ensures { result ≡ blank name }
{
    Compiled {
        name,
        args: Seq::new(alloc),
        rets: Seq::new(alloc),
        pre: Seq::new(alloc),
        frame: 0,
        saved: Seq::new(alloc),
        insns: 0,
        code: Bytes::new(alloc),
        tr: Transformer {
            before: Seq::new(alloc),
            body: Tr {
                cases: Seq::new(alloc),
            },
            after: Seq::new(alloc),
        },
        ct: Ct::Yes,
    }
}

/// What is known where a line of this stage was read.
fn at(stage: Stage, done: Seq<Compiled>, fun: Compiled) -> State
    ensures { result ≡ at stage done fun }
{
    State { stage, done, fun }
}

/// The first line of all, or a function's first line.
#[tactic(auto, unfolding(crate::specs::InnerStates::outside_at))]
fn outside(alloc: Global, state: State, line: Line) -> Result<State, Stop>
    ensures { Took result (outside state line) }
{
    let State { stage, done, fun } = state;
    match stage {
        Stage::First => match line {
            Line::First => Ok(at(Stage::Outside, done, fun)),
            _ => Err(UNFIT),
        },
        Stage::Outside => match line {
            Line::Fn(name) => Ok(at(Stage::Interface, done, blank(alloc, name))),
            _ => Err(UNFIT),
        },
        _ => Err(UNFIT),
    }
}

/// A parameter, where no result and no precondition is known.
#[tactic(auto, unfolding(crate::specs::InnerStates::with_arg))]
fn with_arg(done: Seq<Compiled>, fun: Compiled, arg: Arg) -> Result<State, Stop>
    ensures { Took result (with_arg done fun arg) }
{
    let mut fun = fun;
    if !fun.rets.is_empty() || !fun.pre.is_empty() {
        return Err(UNFIT);
    }
    fun.args.push(arg)?;
    Ok(at(Stage::Interface, done, fun))
}

/// A result, where no precondition is known.
#[tactic(auto, unfolding(crate::specs::InnerStates::with_ret))]
fn with_ret(done: Seq<Compiled>, fun: Compiled, ret: Arg) -> Result<State, Stop>
    ensures { Took result (with_ret done fun ret) }
{
    let mut fun = fun;
    if !fun.pre.is_empty() {
        return Err(UNFIT);
    }
    fun.rets.push(ret)?;
    Ok(at(Stage::Interface, done, fun))
}

fn with_pre(done: Seq<Compiled>, fun: Compiled, pre: Pre) -> Result<State, AllocError>
    ensures { IfOk result (λ s. s ≡ with_pre done fun pre) }
{
    let mut fun = fun;
    fun.pre.push(pre)?;
    Ok(at(Stage::Interface, done, fun))
}

/// What comes behind a function's name, up to its frame.
#[tactic(auto, unfolding(crate::specs::InnerStates::interface))]
fn interface(done: Seq<Compiled>, fun: Compiled, line: Line) -> Result<State, Stop>
    ensures { Took result (interface done fun line) }
{
    match line {
        Line::Arg(arg) => with_arg(done, fun, arg),
        Line::Ret(ret) => with_ret(done, fun, ret),
        Line::Pre(pre) => Ok(with_pre(done, fun, pre)?),
        Line::Frame(size) => {
            let mut fun = fun;
            fun.frame = size;
            Ok(at(Stage::Saved, done, fun))
        }
        _ => Err(UNFIT),
    }
}

/// Saved registers, the number of instructions, or the code.
#[tactic(auto, unfolding(crate::specs::InnerStates::machine))]
fn machine(stage: Stage, done: Seq<Compiled>, fun: Compiled, line: Line) -> Result<State, Stop>
    ensures { Took result (machine stage done fun line) }
{
    let mut fun = fun;
    match stage {
        Stage::Saved => match line {
            Line::Saved(regs) => {
                fun.saved = regs;
                Ok(at(Stage::Insns, done, fun))
            }
            _ => Err(UNFIT),
        },
        Stage::Insns => match line {
            Line::Insns(count) => {
                fun.insns = count;
                Ok(at(Stage::Code, done, fun))
            }
            _ => Err(UNFIT),
        },
        Stage::Code => match line {
            Line::Code(bytes) => {
                fun.code = bytes;
                Ok(at(Stage::Leakage, done, fun))
            }
            _ => Err(UNFIT),
        },
        _ => Err(UNFIT),
    }
}

/// The function is whole.
fn whole(done: Seq<Compiled>, fun: Compiled, alloc: Global) -> Result<State, AllocError>
    ensures { IfOk result (λ s. s ≡ whole done fun) }
{
    let mut done = done;
    done.push(fun)?;
    Ok(at(
        Stage::Outside,
        done,
        blank(alloc, Text::from_string(String::new(alloc))),
    ))
}

/// The transformer, the verdict or the end.
#[tactic(auto, unfolding(crate::specs::InnerStates::verdict_at))]
fn verdict(alloc: Global, state: State, line: Line) -> Result<State, Stop>
    ensures { Took result (verdict state line) }
{
    let State {
        stage,
        done,
        mut fun,
    } = state;
    match stage {
        Stage::Leakage => match line {
            Line::Leakage(tr) => {
                fun.tr = tr;
                Ok(at(Stage::Ct, done, fun))
            }
            _ => Err(UNFIT),
        },
        Stage::Ct => match line {
            Line::Ct(ct) => {
                fun.ct = ct;
                Ok(at(Stage::End, done, fun))
            }
            _ => Err(UNFIT),
        },
        Stage::End => match line {
            Line::End => Ok(whole(done, fun, alloc)?),
            _ => Err(UNFIT),
        },
        _ => Err(UNFIT),
    }
}

/// What is known behind one line more.
#[tactic(auto, unfolding(crate::specs::InnerStates::take))]
pub fn take(alloc: Global, state: State, line: Line) -> Result<State, Stop>
    ensures { Took result (take state line) }
{
    match state.stage {
        Stage::First | Stage::Outside => outside(alloc, state, line),
        Stage::Interface => {
            let State { done, fun, .. } = state;
            interface(done, fun, line)
        }
        Stage::Saved | Stage::Insns | Stage::Code => {
            let State { stage, done, fun } = state;
            machine(stage, done, fun, line)
        }
        Stage::Leakage | Stage::Ct | Stage::End => verdict(alloc, state, line),
    }
}

/// What is known before the first line.
pub fn start(alloc: Global) -> State
    ensures { result ≡ start }
{
    at(
        Stage::First,
        Seq::new(alloc),
        blank(alloc, Text::from_string(String::new(alloc))),
    )
}
