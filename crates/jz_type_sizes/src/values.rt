//! Values that are assigned.

ghost use Rattle.std.specs.Prelude.{◌≡◌, Some};
ghost use Rattle.jz_type_names.specs.Order.{earliest, first_in};
ghost use Rattle.jz_type_sizes.specs.Operators.{bin_form, compared_size, group_size};
ghost use Rattle.jz_type_sizes.specs.Typings.{left_want, right_want};
ghost use Rattle.jz_type_sizes.specs.Sides.{within, any_size};
ghost use Rattle.jz_type_sizes.specs.Values.{value_typing, single, is_product, is_mul, product_size, product_wrong, flag_wrong, value_wrong};

use crate::forms::or;
use crate::operators::{Group, gives, group_of, left_of, right_of, stops, takes_carry};
use crate::sides::{left_fault, left_form, left_span, set_want, takes, within, within_any};
use crate::walk::{fault, form};
use crate::wants::{Form, Want, own_size};
use jz_tree::{BinOp, Expr, Lval, Seq, Size, Span};
use jz_type_names::{earlier_of, span_of, unless};

fn compared(group: Group, a: Option<Size>, b: Option<Size>) -> Option<Size>
    ensures { result ≡ compared_size group a b }
{
    match group {
        Group::Compare => or(a, b),
        Group::Logic | Group::Shift | Group::Arith => None,
    }
}

fn left_want(op: BinOp, a: Form, b: Form, want: Want) -> Want
    ensures { result ≡ left_want op a b want }
{
    let group = group_of(op);
    left_of(
        group,
        op,
        b.inline && a.inline,
        compared(group, a.size, b.size),
        want,
    )
}

fn right_want(op: BinOp, a: Form, b: Form, want: Want) -> Want
    ensures { result ≡ right_want op a b want }
{
    let group = group_of(op);
    let carry = takes_carry(op, want) && b.truth;
    right_of(group, carry, compared(group, a.size, b.size), want)
}

fn group_size(group: Group, a: Option<Size>, b: Option<Size>) -> Option<Size>
    ensures { result ≡ group_size group a b }
{
    match group {
        Group::Shift => a,
        Group::Arith => or(a, b),
        Group::Logic | Group::Compare => None,
    }
}

fn bin_form(group: Group, a: Form, b: Form) -> Form
    ensures { result ≡ bin_form group a b }
{
    Form {
        size: group_size(group, a.size, b.size),
        truth: matches!(group, Group::Logic | Group::Compare),
        inline: b.inline && a.inline,
    }
}

/// What the value is that a left side is set to, with an operation by both sides.
fn value_form(op: Option<BinOp>, to: &Lval, e: &Expr) -> Form
    ensures { result ≡ (value_typing op to.now e.now).form }
{
    match op {
        None => form(e),
        Some(op) => bin_form(group_of(op), left_form(to), form(e)),
    }
}

/// The first wrong place of an operation on the left side and a value.
#[tactic(auto, using(crate::proofs::Joins::joins))]
fn operation_fault(op: BinOp, to: &Lval, e: &Expr, want: Want) -> Option<Span>
    ensures { result ≡ earliest ((value_typing (Some op) to.now e.now).wrong want) }
{
    let group = group_of(op);
    let own = unless(gives(group, want), left_span(to));
    if stops(group, want) {
        return own;
    }
    let left = left_form(to);
    let right = form(e);
    let of_left = left_fault(to, left_want(op, left, right, want));
    let of_right = fault(e, right_want(op, left, right, want));
    earlier_of(own, earlier_of(of_right, of_left))
}

/// The first wrong place of a value, where that is wanted of it.
fn value_fault(op: Option<BinOp>, to: &Lval, e: &Expr, want: Want) -> Option<Span>
    ensures { result ≡ earliest ((value_typing op to.now e.now).wrong want) }
{
    match op {
        None => fault(e, want),
        Some(op) => operation_fault(op, to, e, want),
    }
}

#[tactic(auto, using(crate::proofs::Joins::joins))]
fn single_fault(op: Option<BinOp>, to: &Lval, e: &Expr) -> Option<Span>
    ensures { result ≡ earliest (single to.now (value_typing op to.now e.now)) }
{
    let want = set_want(left_form(to), value_form(op, to, e));
    earlier_of(left_fault(to, want), value_fault(op, to, e, want))
}

fn is_mul(op: BinOp) -> bool
    ensures { result ≡ is_mul op }
{
    matches!(op, BinOp::Mul)
}

fn is_product(op: Option<BinOp>, e: &Expr) -> bool
    ensures { result ≡ is_product op e.now }
{
    match op {
        None => matches!(e, Expr::Bin(BinOp::Mul, _, _, _)),
        Some(op) => is_mul(op),
    }
}

fn product_size(op: Option<BinOp>, high: &Lval, low: &Lval, e: &Expr) -> Option<Size>
    ensures { result ≡ product_size high.now low.now (value_typing op low.now e.now) }
{
    let own = value_form(op, low, e).size;
    or(left_form(high).size, or(left_form(low).size, own))
}

#[tactic(auto, using(crate::proofs::Joins::joins))]
fn product_fault(op: Option<BinOp>, high: &Lval, low: &Lval, e: &Expr) -> Option<Span>
    ensures { result ≡ earliest (product_wrong op high.now low.now e.now) }
{
    let size = product_size(op, high, low, e);
    let want = own_size(size);
    let sides = earlier_of(within(size, high), within(size, low));
    let taken = unless(takes(want, high) && takes(want, low), span_of(e));
    earlier_of(sides, earlier_of(value_fault(op, low, e, want), taken))
}

#[tactic(auto, using(crate::proofs::Joins::joins))]
fn with_flag(op: Option<BinOp>, flag: &Lval, to: &Lval, e: &Expr) -> Option<Span>
    ensures { result ≡ earliest (flag_wrong op flag.now to.now e.now) }
{
    let taken = unless(takes(Want::Truth, flag), span_of(e));
    let before = earlier_of(within_any(flag), taken);
    earlier_of(before, single_fault(op, to, e))
}

/// The first wrong place within left sides.
pub(crate) fn within_all(to: &Seq<Lval>) -> Option<Span>
    ensures { result ≡ first_in (within any_size) to.now }
{
    let mut first = None;
    for side in to.as_slice() {
        first = earlier_of(first, within_any(side));
    }
    first
}

/// The first wrong place of an assignment of a value.
#[tactic(auto, using(crate::proofs::Joins::joins))]
pub(crate) fn assigned_fault(to: &Seq<Lval>, op: Option<BinOp>, e: &Expr) -> Option<Span>
    ensures { result ≡ earliest (value_wrong to.now op e.now) }
{
    match to.as_slice() {
        [] => None,
        [one] => single_fault(op, one, e),
        [high, low] => if is_product(op, e) {
            product_fault(op, high, low, e)
        } else {
            with_flag(op, high, low, e)
        },
        _ => earlier_of(within_all(to), Some(span_of(e))),
    }
}
