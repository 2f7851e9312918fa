//! Variables of places beside operands.

ghost use Rattle.std.specs.Prelude.{◌≡◌};
ghost use Rattle.jz_flag_rows.specs.Wide as wide;

use jz_operations::{Arg, Pinned};
use jz_rows::{is_free, same_arg};

/// Whether an operand is the variable of a place.
#[tactic(auto, using(crate::proofs::ApartLemmas::pinned_is))]
pub(crate) fn is_pinned(pinned: Option<Pinned>, operand: Arg) -> bool
    ensures { result ≡ wide.is_pinned pinned operand }
{
    match pinned {
        None => false,
        Some(pinned) => same_arg(Arg::Var(pinned.variable), operand),
    }
}

/// Whether the variable of a place stands nowhere in an operand.
pub fn is_apart(pinned: Option<Pinned>, operand: Arg) -> bool
    ensures { result ≡ wide.is_apart pinned operand }
{
    match pinned {
        None => true,
        Some(pinned) => is_free(Arg::Var(pinned.variable), operand),
    }
}
