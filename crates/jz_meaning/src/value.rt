//! Values, and why a run is stuck.

ghost use Rattle.std.specs.Prelude.{◌≡◌, ℕ, List, option_map};
ghost use Rattle.jz_meaning.specs.Attempts as part;
ghost use Rattle.jz_meaning.specs.Attempts.{seen, numbers_first, Evaluates};
ghost use Rattle.jz_meaning.specs.States.{as_value};
ghost use Rattle.jz_meaning.specs.declared.value.Why.TheVariants.{Init};

use jz_tree::{Failure, Span};
use x64_insn::Word;

/// What an expression is.
#[derive(Clone, Copy, PartialEq, Eq)]
pub enum Value {
    Word(Word),
    /// A flag, or the answer of a condition.
    Bool(bool),
    /// A whole number that is known when the text is compiled.
    Int(i128),
}

/// Why a run is stuck. At one access Bounds comes before Init, and Address before Align.
#[derive(Clone, Copy, PartialEq, Eq)]
pub enum Why {
    /// An index past the cells of an array.
    Bounds,
    /// A byte that is not valid.
    Address,
    /// An address that is no multiple of the size.
    Align,
    /// A variable or a cell without a value, or what typing excludes.
    Init,
    /// A divisor that is 0, or a quotient for which the word has no room.
    Divide,
}

/// Where a run is stuck, and why.
#[derive(Clone, Copy, PartialEq, Eq)]
pub struct Stuck {
    pub span: Span,
    pub why: Why,
}

impl From<Stuck> for Failure<Stuck> {
    ghost use Rattle.std.specs.Prelude.{◌≡◌};
    ghost use Rattle.jz_tree.specs.Failure.TheVariants.{Refused};

    ghost from_gives = { λ stuck failure. failure ≡ Refused stuck };

    fn from(stuck: Stuck) -> Self {
        Failure::Refused(stuck)
    }
}

/// Stuck at that place for Init: a variable, cell or operand has no value of the sort that is
/// wanted.
pub fn missing(span: Span) -> Stuck
    ensures { result ≡ record { span = span; why = Init } }
{
    Stuck {
        span,
        why: Why::Init,
    }
}

/// The value that is there; else stuck for Init.
pub fn defined(span: Span, value: Option<Value>) -> Result<Value, Stuck>
    ensures { (ns : List ℕ) → seen ns result ≡ numbers_first ns
        (part.defined span (option_map as_value value)) }
{
    match value {
        None => Err(missing(span)),
        Some(value) => Ok(value),
    }
}

/// The same as the answer of a call that takes memory.
pub(crate) fn initialized(span: Span, value: Option<Value>) -> Result<Value, Failure<Stuck>>
    ensures { (ns : List ℕ) → Evaluates result ns ns
        (part.defined span (option_map as_value value)) }
{
    match value {
        None => Err(Failure::Refused(missing(span))),
        Some(value) => Ok(value),
    }
}
