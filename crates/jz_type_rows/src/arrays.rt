//! Arrays among arguments and left sides.

ghost use Rattle.std.specs.Prelude.{◌≡◌, flat_map};
ghost use Rattle.std.specs.Option.{option_copied};
ghost use Rattle.jz_type_names.specs.Order.{earliest, first_in};
ghost use Rattle.jz_type_rows.specs.Copies.{place_of_array, array_arg, array_left};

use jz_tree::{Expr, Lval, Seq, Span, Var};
use jz_type_names::{array_of, earlier_of, whole_array};

fn place_of_array(array: Option<&Var>) -> Option<Span>
    ensures { result ≡ earliest (place_of_array (option_copied array.entry)) }
{
    match array {
        None => None,
        Some(var) => Some(var.span),
    }
}

fn array_arg(arg: &Expr) -> Option<Span>
    ensures { result ≡ earliest (array_arg arg.now) }
{
    place_of_array(array_of(arg))
}

fn array_left(to: &Lval) -> Option<Span>
    ensures { result ≡ earliest (array_left to.now) }
{
    place_of_array(whole_array(to))
}

fn first_arg(args: &Seq<Expr>) -> Option<Span>
    ensures { result ≡ first_in array_arg args.now }
{
    let mut first = None;
    for arg in args.as_slice() {
        first = earlier_of(first, array_arg(arg));
    }
    first
}

fn first_left(tos: &Seq<Lval>) -> Option<Span>
    ensures { result ≡ first_in array_left tos.now }
{
    let mut first = None;
    for to in tos.as_slice() {
        first = earlier_of(first, array_left(to));
    }
    first
}

/// The first array among arguments.
#[tactic(auto, using(jz_type_names::proofs::Earliest::joining))]
pub(crate) fn array_args(args: &Seq<Expr>) -> Option<Span>
    ensures { result ≡ earliest (flat_map array_arg args.now) }
{
    first_arg(args)
}

/// The first array that is a left side as a whole.
#[tactic(auto, using(jz_type_names::proofs::Earliest::joining))]
pub(crate) fn array_lefts(tos: &Seq<Lval>) -> Option<Span>
    ensures { result ≡ earliest (flat_map array_left tos.now) }
{
    first_left(tos)
}
