//! Operands that are words or conditions.

ghost use Rattle.std.specs.Prelude.{◌≡◌, IfOk, List, ℕ};
ghost use Rattle.jz_meaning.specs.Attempts.{did, numbers_first, Gives};
ghost use Rattle.jz_meaning.specs.Operators as operators;
ghost use Rattle.jz_meaning.specs.States.{as_value};
ghost use Rattle.jz_meaning.specs.Stores.{state_of};
ghost use Rattle.jz_meaning.specs.Assignments as assignments;
ghost use Rattle.jz_run_assign.specs.Answers.{bits_in, GivesBits};

use jz_meaning::{State, Stuck, Value, evaluate, missing, word_of};
use jz_tree::{Expr, Failure, Seq, Span};
use jz_words::{Size, Word};

/// The value in the place of a word of a size.
pub(crate) fn word_at(span: Span, size: Size, value: Value) -> Result<Word, Stuck>
    ensures bits { (ns : List ℕ) → did ns (bits_in result) ≡ numbers_first ns
        (operators.word_at span size (as_value value)) }
    ensures size { IfOk result (λ w. w.size ≡ size) }
{
    match word_of(size, value) {
        None => Err(missing(span)),
        Some(word) => Ok(word),
    }
}

fn truth(span: Span, value: Value) -> Result<bool, Stuck>
    ensures { (ns : List ℕ) → did ns result ≡ numbers_first ns
        (assignments.truth span (as_value value)) }
{
    match value {
        Value::Bool(truth) => Ok(truth),
        Value::Word(_) => Err(missing(span)),
        Value::Int(_) => Err(missing(span)),
    }
}

/// The value of an expression as a word of a size; stuck for Init at `span` where it is none.
pub fn word_in(
    span: Span,
    size: Size,
    e: &Expr,
    state: &State,
    out: &mut Seq<u64>,
) -> Result<Word, Failure<Stuck>>
    ensures bits { GivesBits result out.old out.new
        (assignments.word_in span size e.now (state_of state.now)) }
    ensures size { IfOk result (λ w. w.size ≡ size) }
{
    let value = evaluate(e, Some(size), state, out)?;
    let word = word_at(span, size, value)?;
    Ok(word)
}

/// The value of a condition; stuck for Init at `span` where it is none.
pub fn truth_in(
    span: Span,
    e: &Expr,
    state: &State,
    out: &mut Seq<u64>,
) -> Result<bool, Failure<Stuck>>
    ensures { Gives result out.old out.new (assignments.bool_in span e.now (state_of state.now)) }
{
    let value = evaluate(e, None, state, out)?;
    let holds = truth(span, value)?;
    Ok(holds)
}
