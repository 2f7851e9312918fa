//! The run of a function on argument words.

ghost use Rattle.std.specs.Prelude.{◌≡◌, IfOk, OnOk};
ghost use Rattle.jz_tree.specs.Failures.{IfAnswered};
ghost use Rattle.jz_meaning.specs.Stores.{store_of};
ghost use Rattle.jz_meaning.specs.Runs as runs;
ghost use Rattle.jz_interp.specs.Outcomes.{values_of};
ghost use Rattle.jz_interp.specs.InnerAnswers.{word_seen, words_seen, outcome_of, BodyShows};

use crate::code::Code;
use crate::ends::Ran;
use crate::outcome::Outcome;
use crate::running::run_block;
use jz_leak::{Leak, MemMap};
use jz_meaning::{State, Store, Stuck, Value, Why};
use jz_run_assign::{set, value_of};
use jz_tree::{Failure, Fun, Param, Seq, Var, Word};
use std::alloc::AllocError;

/// The parameters have the argument words.
fn give_words(params: &Seq<Param>, words: &Seq<Word>, store: &mut Store) -> Result<(), AllocError>
    ensures { let values = values_of words.now in
        let given = runs.with_arguments params.now values (store_of store.old) in
        OnOk result (store_of store.new ≡ given) }
{
    for (i, param) in params.as_slice().iter().enumerate() {
        match words.get(i) {
            None => return Ok(()),
            Some(word) => set(&param.var, Some(Value::Word(*word)), store)?,
        }
    }
    Ok(())
}

/// The word of a variable that is returned.
fn result_word(var: &Var, store: &Store) -> Result<Word, Stuck>
    ensures { word_seen result ≡ runs.result_word var.now (store_of store.now) }
{
    let span = var.span;
    let why = Why::Init;
    match value_of(var, store) {
        None => Err(Stuck { span, why }),
        Some(Value::Word(word)) => Ok(word),
        Some(Value::Bool(_)) => Err(Stuck { span, why }),
        Some(Value::Int(_)) => Err(Stuck { span, why }),
    }
}

/// The words of the variables that are returned.
fn result_words(vars: &Seq<Var>, store: &Store) -> Result<Seq<Word>, Failure<Stuck>>
    ensures { let words = runs.result_words vars.now (store_of store.now) in
        IfAnswered result (λ r. words_seen r ≡ words) }
{
    let mut words = Seq::new(store.allocator());
    for var in vars.as_slice() {
        let word = result_word(var, store)?;
        words.push(word)?;
    }
    Ok(words)
}

/// The run of its body, and the words that it returns.
fn run_body_of(
    code: &Code<'_>,
    function: &Fun,
    words: &Seq<Word>,
    memory: MemMap,
    fuel: u64,
) -> Result<Outcome, Failure<Stuck>>
    ensures { let funs = code.now.funs.now in
        let run = BodyShows funs function.now (values_of words.now) memory fuel in
        IfAnswered result (λ r. run (outcome_of r)) }
{
    let mut store = Store::new(code.alloc);
    give_words(&function.params, words, &mut store)?;
    let mut state = State { store, memory };
    match run_block(code, code.funs.len(), &function.body, &mut state, fuel)? {
        Ran::Cut(items) => Ok(Outcome::Cut(Leak { items })),
        Ran::End(_, items) => {
            let words = result_words(&function.result, &state.store)?;
            Ok(Outcome::End(words, state.memory, Leak { items }))
        }
    }
}

/// The run of a function on argument words, one for each parameter.
pub fn run_function(
    code: &Code<'_>,
    function: &Fun,
    words: &Seq<Word>,
    memory: MemMap,
    fuel: u64,
) -> Result<Outcome, AllocError>
    ensures { let funs = code.now.funs.now in
        let run = BodyShows funs function.now (values_of words.now) memory fuel in
        IfOk result run }
{
    match run_body_of(code, function, words, memory, fuel) {
        Ok(outcome) => Ok(outcome),
        Err(Failure::Refused(stuck)) => Ok(Outcome::Stuck(stuck)),
        Err(Failure::OutOfMemory) => Err(AllocError),
    }
}
