//! Whole numbers that are known when the text is compiled.

ghost use Rattle.std.specs.Prelude.{◌≡◌, ℕ, List};
ghost use Rattle.jz_meaning.specs.Attempts.{did, numbers_first, Gives};
ghost use Rattle.jz_meaning.specs.States.{as_value};
ghost use Rattle.jz_meaning.specs.Stores.{state_of};
ghost use Rattle.jz_meaning.specs.Statements as statements;

use jz_meaning::{State, Stuck, Value, evaluate, missing};
use jz_tree::{Expr, Failure, Seq, Span};

/// A value as a whole number.
fn number_at(span: Span, value: Value) -> Result<i128, Stuck>
    ensures { (ns : List ℕ) → did ns result ≡ numbers_first ns
        (statements.number_at span (as_value value)) }
{
    match value {
        Value::Int(number) => Ok(number),
        Value::Word(_) => Err(missing(span)),
        Value::Bool(_) => Err(missing(span)),
    }
}

/// The value of an inline expression as a whole number; stuck for Init at `span` where it is none.
pub fn number_in(
    span: Span,
    e: &Expr,
    state: &State,
    out: &mut Seq<u64>,
) -> Result<i128, Failure<Stuck>>
    ensures { Gives result out.old out.new (statements.number_in span e.now (state_of state.now)) }
{
    let value = evaluate(e, None, state, out)?;
    let number = number_at(span, value)?;
    Ok(number)
}
