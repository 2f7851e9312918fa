//! What runs come to.

use jasminc_source::typed_program;
use jz_interp::{Input, Outcome, interpret, takes};
use jz_meaning::{Kind, MemMap, Stuck, Why, kind_of};
use jz_tree::{Failure, Param, Seq};
use jz_types::Typed;
use jz_words::{Size, Word};
use std::alloc::{AllocError, Global};

/// The words of the parameters, with blanks between, and how many true tests of `while` there may be.
#[derive(Clone, Copy)]
pub struct Given<'a> {
    pub words: &'a str,
    pub turns: u64,
}

fn size_of(param: &Param) -> Size {
    match kind_of(&param.var) {
        Kind::Word(size) => size,
        _ => Size::S64,
    }
}

fn words_of(alloc: Global, params: &Seq<Param>, given: &str) -> Result<Seq<Word>, AllocError> {
    let mut all = Seq::new(alloc);
    let given = given.split(" ").filter(|number| !number.is_empty());
    for (param, number) in params.as_slice().iter().zip(given) {
        let bits = number.parse::<u64>().unwrap_or(0);
        all.push(Word::truncate(size_of(param), bits))?;
    }
    Ok(all)
}

/// 64 bytes that begin at 4096: the first of each eight is 1, the others are 0.
fn memory(alloc: Global) -> Result<MemMap, AllocError> {
    let mut mem = MemMap::new(alloc);
    mem.add(4096, &[0; 64])?;
    for word in 0..8u64 {
        mem.set(4096 + 8 * word, 1);
    }
    Ok(mem)
}

fn why_text(why: Why) -> &'static str {
    match why {
        Why::Bounds => "Bounds",
        Why::Address => "Address",
        Why::Align => "Align",
        Why::Init => "Init",
        Why::Divide => "Divide",
    }
}

fn show(outcome: &Outcome, out: &mut String) -> Result<(), AllocError> {
    match outcome {
        Outcome::End(results, _, _) => {
            out.push_str("end")?;
            for word in results.as_slice() {
                write!(out, " {}", word.bits())?;
            }
            Ok(())
        }
        Outcome::Cut(_) => out.push_str("cut"),
        Outcome::Stuck(at) => {
            let Stuck { span, why } = *at;
            write!(out, "stuck {}:{} {}", span.line, span.col, why_text(why))
        }
    }
}

fn run_typed(
    alloc: Global,
    typed: &Typed,
    given: Given<'_>,
    out: &mut String,
) -> Result<(), AllocError> {
    let funs = typed.program().funs.as_slice();
    let last = funs.len().saturating_sub(1);
    let Some(fun) = funs.get(last) else {
        return out.push_str("no function");
    };
    let words = words_of(alloc, &fun.params, given.words)?;
    let mem = memory(alloc)?;
    let input = Input { words, mem };
    if !takes(typed, last, &input.words) {
        return out.push_str("other parameters");
    }
    let outcome = interpret(alloc, typed, last, &input, given.turns)?;
    show(&outcome, out)
}

/// What a run of the last function of a text comes to.
pub fn run_of(
    alloc: Global,
    text: &[u8],
    given: Given<'_>,
    out: &mut String,
) -> Result<(), AllocError> {
    if text.len() > 1_048_576 {
        return out.push_str("too long");
    }
    match typed_program(alloc, text) {
        Ok(typed) => run_typed(alloc, &typed, given, out),
        Err(Failure::Refused(_)) => out.push_str("not typed"),
        Err(Failure::OutOfMemory) => Err(AllocError),
    }
}
