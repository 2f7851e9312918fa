//! The first wrong place of an expression.

ghost use Rattle.std.specs.Prelude.{◌≡◌};
ghost use Rattle.jz_type_sizes.specs.InnerFound.{found_of, own_first, left_inline as left_inline_of};
ghost use Rattle.jz_type_sizes.specs.Operators.{compared_size};
ghost use Rattle.jz_type_sizes.specs.Typings.{typing};
ghost use Rattle.jz_type_names.specs.Order.{earliest};

use crate::forms::{inline, or, size, truth};
use crate::operators::{Group, gives, group_of, left_of, right_of, stops, takes_carry};
use crate::wants::{
    Form, Want, cast_want, cell_size, fits_access, fits_cell, fits_int, fits_known, fits_truth,
    fits_word,
};
use jz_tree::{Expr, Size, Span};
use jz_type_names::{earlier_of, known, unless};

fn compared(group: Group, a: &Expr, b: &Expr) -> Option<Size>
    ensures { result ≡ compared_size group (found_of a.now).form.size (found_of b.now).form.size }
{
    match group {
        Group::Compare => or(size(a), size(b)),
        Group::Logic | Group::Shift | Group::Arith => None,
    }
}

/// Asks the left operand only where nothing is known of it, so that a long left side is not asked
/// again at each operator.
fn left_inline(whole: bool, a: &Expr, b: &Expr) -> bool
    ensures { result
        ≡ left_inline_of whole (found_of a.now).form.inline (found_of b.now).form.inline }
{
    if whole {
        return true;
    }
    if inline(b) {
        return false;
    }
    inline(a)
}

/// The place of an expression whose own type is not what is wanted.
fn own(e: &Expr, want: Want) -> Option<Span>
    ensures { result ≡ own_first e.now want }
{
    match e {
        Expr::Num(_, at) => unless(fits_int(want), *at),
        Expr::Bool(_, at) => unless(fits_truth(want), *at),
        Expr::Var(var) => unless(fits_known(known(var), want), var.span),
        Expr::Cell(var, _) => unless(fits_cell(cell_size(known(var)), want), var.span),
        Expr::Load(access) => unless(fits_access(access.size, want), access.span),
        Expr::Neg(_, at) => unless(!fits_truth(want), *at),
        Expr::Not(_, _) => None,
        Expr::Cast { size, span, .. } => unless(fits_word(*size, want), *span),
        Expr::Bin(op, _, _, at) => unless(gives(group_of(*op), want), *at),
    }
}

/// An expression that is asked: whether it is inline, and what is wanted there.
#[derive(Clone, Copy)]
struct Asked<'a> {
    expr: &'a Expr,
    inline: bool,
    want: Want,
}

/// An index, an address or the operand of a cast, which says by itself whether it is inline.
fn apart(expr: &Expr, want: Want) -> Asked<'_>
    ensures same { result.expr.now ≡ expr.now }
    ensures inline { result.inline ≡ (found_of expr.now).form.inline }
    ensures wanted { result.want ≡ want }
{
    Asked {
        expr,
        inline: inline(expr),
        want,
    }
}

/// The first place whose type is not what is wanted, by a loop down the left side.
pub(crate) fn first(e: &Expr, e_inline: bool, want: Want) -> Option<Span>
    ensures { result ≡ (found_of e.now).first e_inline want }
{
    let mut best = None;
    let mut cur = Asked {
        expr: e,
        inline: e_inline,
        want,
    };
    loop {
        best = earlier_of(best, own(cur.expr, cur.want));
        match cur.expr {
            Expr::Num(_, _) => return best,
            Expr::Bool(_, _) => return best,
            Expr::Var(_) => return best,
            Expr::Cell(_, at) => cur = apart(at.get(), Want::Sized(Size::S64)),
            Expr::Load(access) => cur = apart(access.at.get(), Want::Sized(Size::S64)),
            Expr::Neg(a, _) => {
                if fits_truth(cur.want) {
                    return best;
                }
                cur.expr = a.get();
            }
            Expr::Not(a, _) => cur.expr = a.get(),
            Expr::Cast { e: a, .. } => cur = apart(a.get(), cast_want(size(a.get()))),
            Expr::Bin(op, a, b, _) => {
                let group = group_of(*op);
                if stops(group, cur.want) {
                    return best;
                }
                let z = compared(group, a.get(), b.get());
                let left = left_inline(cur.inline, a.get(), b.get());
                let carry = takes_carry(*op, cur.want) && truth(b.get());
                let right = right_of(group, carry, z, cur.want);
                best = earlier_of(best, first(b.get(), inline(b.get()), right));
                cur.want = left_of(group, *op, cur.inline, z, cur.want);
                cur.inline = left;
                cur.expr = a.get();
            }
        }
    }
}

/// What an expression is by itself.
#[tactic(auto, using(crate::proofs::SameForms::same_form))]
pub(crate) fn form(e: &Expr) -> Form
    ensures { result ≡ (typing e.now).form }
{
    Form {
        size: size(e),
        truth: truth(e),
        inline: inline(e),
    }
}

/// The first place of an expression whose type is not what is wanted there.
#[tactic(auto, using(crate::proofs::SameForms::same_first))]
pub(crate) fn fault(e: &Expr, want: Want) -> Option<Span>
    ensures { result ≡ earliest ((typing e.now).wrong want) }
{
    first(e, inline(e), want)
}
