//! The whole right side of an assignment with an operation.

ghost use Rattle.std.specs.Prelude.{◌≡◌, IfOk, Some};
ghost use Rattle.jz_tree.specs.declared.expr.Expr.TheVariants as expr;
ghost use Rattle.jz_tree.specs.declared.expr.Expr.TheViews.{out-Expr};
ghost use Rattle.jz_meaning.specs.Assignments as assignments;

use crate::right::{is_carry, last_left};
use jz_meaning::left_span;
use jz_tree::{BinOp, Boxed, Expr, Lval, Seq, Span};
use std::alloc::{AllocError, Global};

/// A left side where it is read; `_` is not.
fn read(alloc: Global, to: &Lval) -> Result<Option<Expr>, AllocError>
    ensures { IfOk result (λ e. e ≡ assignments.as_expr to.now) }
{
    match to {
        Lval::Skip(_) => Ok(None),
        Lval::Var(var) => Ok(Some(Expr::Var(var.copy(alloc)?))),
        Lval::Cell(var, at) => {
            let index = Boxed::new(alloc, at.get().copy(alloc)?)?;
            Ok(Some(Expr::Cell(var.copy(alloc)?, index)))
        }
        Lval::Store(access) => Ok(Some(Expr::Load(access.copy(alloc)?))),
    }
}

fn binary(
    alloc: Global,
    op: BinOp,
    left: Expr,
    right: &Expr,
    span: Span,
) -> Result<Expr, AllocError>
    ensures { IfOk result (λ e. e ≡ expr.Bin op left right.now span) }
{
    let first = Boxed::new(alloc, left)?;
    let second = Boxed::new(alloc, right.copy(alloc)?)?;
    Ok(Expr::Bin(op, first, second, span))
}

/// `left op e`; a flag behind e goes behind the whole.
fn updated(alloc: Global, op: BinOp, left: Expr, e: &Expr, span: Span) -> Result<Expr, AllocError>
    ensures { IfOk result
        (λ w. w ≡ assignments.updated_layer op left e.now span (out-Expr e.now)) }
{
    match e {
        Expr::Bin(outer, right, flag, _) => {
            if is_carry(op, *outer, flag.get()) {
                let inner = binary(alloc, op, left, right.get(), span)?;
                let whole = binary(alloc, *outer, inner, flag.get(), span)?;
                Ok(whole)
            } else {
                let whole = binary(alloc, op, left, e, span)?;
                Ok(whole)
            }
        }
        Expr::Num(_, _) => binary(alloc, op, left, e, span),
        Expr::Bool(_, _) => binary(alloc, op, left, e, span),
        Expr::Var(_) => binary(alloc, op, left, e, span),
        Expr::Cell(_, _) => binary(alloc, op, left, e, span),
        Expr::Load(_) => binary(alloc, op, left, e, span),
        Expr::Neg(_, _) => binary(alloc, op, left, e, span),
        Expr::Not(_, _) => binary(alloc, op, left, e, span),
        Expr::Cast { .. } => binary(alloc, op, left, e, span),
    }
}

/// The whole right side of `to op= e`.
pub fn whole(alloc: Global, to: &Lval, op: BinOp, e: &Expr) -> Result<Option<Expr>, AllocError>
    ensures { IfOk result (λ w. w ≡ assignments.whole_of (Some to.now) (Some op) e.now) }
{
    let old = read(alloc, to)?;
    match old {
        None => Ok(None),
        Some(left) => {
            let right = updated(alloc, op, left, e, left_span(to))?;
            Ok(Some(right))
        }
    }
}

/// The whole right side of `to op= e`, where there is an operation and something to read.
pub fn whole_of(
    alloc: Global,
    to: &Seq<Lval>,
    op: BinOp,
    e: &Expr,
) -> Result<Option<Expr>, AllocError>
    ensures { IfOk result
        (λ w. w ≡ assignments.whole_of (assignments.last_left to.now) (Some op) e.now) }
{
    match last_left(to) {
        None => Ok(None),
        Some(left) => {
            let made = whole(alloc, left, op, e)?;
            Ok(made)
        }
    }
}
