//! What `interpret` asks of its input.

ghost use Rattle.std.specs.Prelude.{◌↔◌, IsTrue};
ghost use Rattle.jz_meaning.specs.Values.{ref_of};
ghost use Rattle.jz_meaning.specs.Runs.{FitsKind};
ghost use Rattle.jz_meaning.specs.States.{word};
ghost use Rattle.jz_interp.specs.Outcomes.{values_of, AllFit, Takes};

use jz_meaning::{Kind, kind_of};
use jz_tree::{Param, Seq, Word};
use jz_types::Typed;

fn fits(param: &Param, given: Word) -> bool
    ensures { IsTrue result ↔ FitsKind (ref_of param.now.var).kind (word given.size given.bits) }
{
    match kind_of(&param.var) {
        Kind::Word(size) => given.size() == size,
        _ => false,
    }
}

fn fit(params: &Seq<Param>, words: &Seq<Word>) -> bool
    ensures { IsTrue result ↔ AllFit params.now (values_of words.now) }
{
    if params.len() != words.len() {
        return false;
    }
    for (i, param) in params.as_slice().iter().enumerate() {
        match words.get(i) {
            None => return false,
            Some(word) => {
                if !fits(param, *word) {
                    return false;
                }
            }
        }
    }
    true
}

/// Whether a program has a function at that place, and these are its arguments: one word for each
/// parameter and of its size.
pub fn takes(typed: &Typed, fun: usize, words: &Seq<Word>) -> bool
    ensures { IsTrue result ↔ Takes typed.now.program fun words.now }
{
    match typed.program().funs.get(fun) {
        None => false,
        Some(function) => fit(&function.params, words),
    }
}
