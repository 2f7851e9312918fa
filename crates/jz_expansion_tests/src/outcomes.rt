//! What runs come to.

use crate::running::{Came, begin, run};
use crate::showing::{leak, numbers, stuck, words};
use jz_interp::{Input, Outcome, interpret, takes};
use jz_meaning::{Kind, MemMap, State, Store, kind_of};
use jz_tree::{Failure, Fun, Param, Seq};
use jz_types::Typed;
use jz_words::{Size, Word};
use std::alloc::{AllocError, Global};

/// The words of the parameters, with blanks between, and how many true tests of `while` there may be.
#[derive(Clone, Copy)]
pub struct Given<'a> {
    pub words: &'a str,
    pub turns: u64,
}

/// Where nothing is run.
pub const NOTHING: Given<'static> = Given {
    words: "",
    turns: 0,
};

/// The size of a parameter's words.
fn size_of(param: &Param) -> Size {
    match kind_of(&param.var) {
        Kind::Word(size) => size,
        _ => Size::S64,
    }
}

fn words_of(alloc: Global, params: &Seq<Param>, given: &str) -> Result<Seq<Word>, AllocError> {
    let mut all = Seq::new(alloc);
    let given = given.split(" ").filter(|number| !number.is_empty());
    for (param, number) in params.as_slice().iter().zip(given) {
        let bits = number.parse::<u64>().unwrap_or(0);
        all.push(Word::truncate(size_of(param), bits))?;
    }
    Ok(all)
}

/// 64 bytes that begin at 4096: the first of each eight is 1, the others are 0.
fn memory(alloc: Global) -> Result<MemMap, AllocError> {
    let mut mem = MemMap::new(alloc);
    mem.add(4096, &[0; 64])?;
    for word in 0..8u64 {
        mem.set(4096 + 8 * word, 1);
    }
    Ok(mem)
}

/// What the runs of the last function of a text, and of what it has become, come to.
pub fn runs(
    alloc: Global,
    given: Given<'_>,
    typed: &Typed,
    fun: &Fun,
    out: &mut String,
) -> Result<(), AllocError> {
    let words = words_of(alloc, &fun.params, given.words)?;
    let mem = memory(alloc)?;
    let input = Input { words, mem };
    out.push_str(" => ")?;
    source_run(alloc, typed, &input, given.turns, out)?;
    out.push_str(" => ")?;
    plain_run(alloc, fun, &input, given.turns, out)
}

/// What a run of the last function of a text comes to. Where it is stuck its leak is not told.
fn source_run(
    alloc: Global,
    typed: &Typed,
    input: &Input,
    turns: u64,
    out: &mut String,
) -> Result<(), AllocError> {
    let last = typed.program().funs.len().saturating_sub(1);
    if !takes(typed, last, &input.words) {
        return out.push_str("other parameters");
    }
    match interpret(alloc, typed, last, input, turns)? {
        Outcome::End(results, _, leaked) => {
            words(&results, out)?;
            leak(&leaked, out)
        }
        Outcome::Cut(leaked) => {
            out.push_str("cut ;")?;
            leak(&leaked, out)
        }
        Outcome::Stuck(at) => stuck(at, out),
    }
}

/// What a run of a function without calls comes to. Where it is stuck, the numbers are those that it
/// has leaked before.
fn plain_run(
    alloc: Global,
    fun: &Fun,
    input: &Input,
    turns: u64,
    out: &mut String,
) -> Result<(), AllocError> {
    let mut state = State {
        store: Store::new(alloc),
        memory: input.mem.copy(alloc)?,
    };
    begin(fun, &input.words, &mut state.store)?;
    let mut leaked = Seq::new(alloc);
    match run(alloc, fun, &mut state, turns, &mut leaked) {
        Ok(Came::End(results)) => words(&results, out)?,
        Ok(Came::Cut) => out.push_str("cut ;")?,
        Err(Failure::Refused(at)) => stuck(at, out)?,
        Err(Failure::OutOfMemory) => return Err(AllocError),
    }
    numbers(&leaked, out)
}
