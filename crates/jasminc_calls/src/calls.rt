//! The arguments that items are.

ghost use Rattle.std.specs.Prelude.{◌≡◌, [], IfOk, map};
ghost use Rattle.jz_meaning.specs.States.{word};
ghost use Rattle.jz_meaning.specs.Values.{ref_of};
ghost use Rattle.jz_interp.specs.Outcomes.{values_of};
ghost use Rattle.jz_preconditions.specs.Refusals.{refused_places};
ghost use Rattle.jasminc_calls.specs.Calls.{argument, argument_values};
ghost use Rattle.jasminc_calls.specs.Fitting.{IsCallOf};

use jz_items::{Item, words_of};
use jz_meaning::{Kind, kind_of};
use jz_preconditions::Pre;
use jz_stated::stated;
use jz_tree::{Fun, Param, Seq, Word};
use jz_words::Size;
use std::alloc::{AllocError, Global};

/// The arguments that items are, and what the function asks of them.
#[derive(Drop)]
pub struct Called {
    /// One word for each parameter, of its size.
    pub words: Seq<Word>,
    /// The same as numbers.
    pub bits: Seq<u64>,
    /// The preconditions of the function, in the order of its text.
    pub pres: Seq<Pre>,
}

/// The argument that an item's word is: as many of its low bits as the parameter has.
fn argument(param: &Param, item: u64) -> Word
    ensures { word result.size result.bits ≡ argument (ref_of param.now.var).kind item }
{
    match kind_of(&param.var) {
        Kind::Word(size) => Word::truncate(size, item),
        _ => Word::truncate(Size::S64, item),
    }
}

/// The arguments that words are.
fn arguments(alloc: Global, params: &Seq<Param>, items: &Seq<u64>) -> Result<Seq<Word>, AllocError>
    ensures { IfOk result (λ words. values_of words ≡ argument_values params.now items.now) }
{
    let mut words = Seq::new(alloc);
    for (i, param) in params.as_slice().iter().enumerate() {
        match items.get(i) {
            None => return Ok(words),
            Some(item) => words.push(argument(param, *item))?,
        }
    }
    Ok(words)
}

fn bits_of(alloc: Global, words: &Seq<Word>) -> Result<Seq<u64>, AllocError>
    ensures { IfOk result (λ bits. bits ≡ map (λ w. w.bits) words.now) }
{
    words.try_map(alloc, |word| Ok(word.bits()))
}

/// What a function of which no precondition is refused is run on.
pub(crate) fn prepared(
    alloc: Global,
    function: &Fun,
    items: &Seq<Item>,
) -> Result<Called, AllocError>
    requires { refused_places function.now ≡ [] }
    ensures { IfOk result (IsCallOf function.now items.now) }
{
    let numbers = words_of(alloc, items)?;
    let words = arguments(alloc, &function.params, &numbers)?;
    let bits = bits_of(alloc, &words)?;
    let pres = stated(alloc, function)?;
    Ok(Called { words, bits, pres })
}
