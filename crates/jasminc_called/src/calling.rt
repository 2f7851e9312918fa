//! Calls of an export function of a text on items.

ghost use Rattle.std.specs.Prelude.{◌≡◌, ◌≤◌, ℕ, List, length};
ghost use Rattle.jz_tree.specs.Failures.{IfAnswered};
ghost use Rattle.jasminc_source.specs.Texts.{source_limit};
ghost use Rattle.jz_items.specs.Items.{AreItems};
ghost use Rattle.jasminc_called.specs.Making.{IsMadeFor};
ghost use Rattle.jasminc_called.specs.Answers.{Executes, Leaks, Answers};
ghost use Rattle.jasminc_called.specs.Calls.{as_refusal, CallAnswers};

use crate::making::{MadeFor, compiled_for, made_for};
use crate::refused::Refused;
use jasminc_leaks::leak_function;
use jasminc_runs::{Ran, Unfit, run_function};
use jasminc_source::function_at;
use jz_items::Item;
use jz_listing::Compiled;
use jz_tree::{Failure, Seq};
use std::alloc::Global;

/// The text of a call, and the export functions of the text as bytes, in its order.
#[derive(Drop)]
pub struct Told {
    pub ran: Ran,
    pub functions: Seq<Compiled>,
}

/// The answer of a call, its refusal as one of the text.
pub fn as_refusal(answer: Result<Ran, Failure<Unfit>>) -> Result<Ran, Failure<Refused>>
    ensures { result ≡ as_refusal answer }
{
    match answer {
        Ok(ran) => Ok(ran),
        Err(Failure::Refused(Unfit::Items)) => Err(Failure::Refused(Refused::Items)),
        Err(Failure::Refused(Unfit::Unmet(pre))) => Err(Failure::Refused(Refused::Unmet(pre))),
        Err(Failure::OutOfMemory) => Err(Failure::OutOfMemory),
    }
}

/// The run of the function that was made.
fn run_made(
    alloc: Global,
    made: &MadeFor,
    fun: &str,
    items: &Seq<Item>,
    fuel: u64,
) -> Result<Ran, Failure<Refused>>
    requires given { AreItems items.now }
    requires made { (text : List ℕ) × IsMadeFor text fun.now made.now }
    ensures { IfAnswered result
        (CallAnswers (Executes items.now fuel) fun.now items.now made.now) }
{
    let tree = made.typed.program();
    let function = function_at(&tree.funs, made.place);
    let compiled = compiled_for(made, fun);
    let answer = run_function(alloc, function, compiled, items, fuel);
    as_refusal(answer)
}

/// What the function that was made shows.
fn leak_made(
    alloc: Global,
    made: &MadeFor,
    fun: &str,
    items: &Seq<Item>,
    fuel: u64,
) -> Result<Ran, Failure<Refused>>
    requires given { AreItems items.now }
    requires made { (text : List ℕ) × IsMadeFor text fun.now made.now }
    ensures { IfAnswered result
        (CallAnswers (Leaks items.now fuel) fun.now items.now made.now) }
{
    let compiled = compiled_for(made, fun);
    let answer = leak_function(alloc, &made.typed, made.place, compiled, items, fuel);
    as_refusal(answer)
}

/// What is told beside the functions.
pub fn told_with(made: MadeFor, ran: Ran) -> Told
    ensures { result ≡ record { ran = ran; functions = made.functions } }
{
    let MadeFor {
        typed: _,
        place: _,
        functions,
    } = made;
    Told { ran, functions }
}

/// The run on the machine of what the export function of that name is compiled to, on items, with at
/// most so many steps; or the first reason why it is not run.
pub fn exec_text(
    alloc: Global,
    text: &[u8],
    fun: &str,
    items: &Seq<Item>,
    fuel: u64,
) -> Result<Told, Failure<Refused>>
    requires short { length text.now ≤ source_limit }
    requires given { AreItems items.now }
    ensures { IfAnswered result
        (Answers (Executes items.now fuel) text.now fun.now items.now) }
{
    let made = made_for(alloc, text, fun)?;
    let ran = run_made(alloc, &made, fun, items, fuel)?;
    Ok(told_with(made, ran))
}

/// What the export function of that name shows on items: the transformer that it is compiled with,
/// applied to what its source leaks with at most so many turns of `while`; or the first reason why
/// nothing is shown.
pub fn leak_text(
    alloc: Global,
    text: &[u8],
    fun: &str,
    items: &Seq<Item>,
    fuel: u64,
) -> Result<Told, Failure<Refused>>
    requires short { length text.now ≤ source_limit }
    requires given { AreItems items.now }
    ensures { IfAnswered result
        (Answers (Leaks items.now fuel) text.now fun.now items.now) }
{
    let made = made_for(alloc, text, fun)?;
    let ran = leak_made(alloc, &made, fun, items, fuel)?;
    Ok(told_with(made, ran))
}
