//! Expressions as they are in a copy of a body, by a loop down the left side of an expression.

ghost use Rattle.std.specs.Prelude.{◌≡◌, IfOk, map, option_map};
ghost use Rattle.jz_inline.specs.Names.{expr_in, access_in, lval_in};
ghost use Rattle.jz_inline.specs.CopiedNames.{names_of};
ghost use Rattle.jz_tree.specs.LeftSides.{on_left};

use crate::names::NamesInCopy;
use jz_tree::{Access, Boxed, Expr, LeftSide, LeftStep, Lval, Seq};
use std::alloc::{AllocError, Global};

/// An expression in the copy.
#[cycle(rename)]
pub fn expr_in_copy(alloc: Global, names: &NamesInCopy, expr: &Expr) -> Result<Expr, AllocError>
    ensures { IfOk result (λ copy. copy ≡ expr_in (names_of names.now) expr.now) }
{
    let side = side_in_copy(alloc, names, expr)?;
    let copy = side.into_expr(alloc)?;
    Ok(copy)
}

#[cycle(rename)]
fn side_in_copy(alloc: Global, names: &NamesInCopy, expr: &Expr) -> Result<LeftSide, AllocError>
    ensures { let whole = expr_in (names_of names.now) expr.now in
        IfOk result (λ side. on_left side.steps.items side.first ≡ whole) }
{
    let mut steps = Vec::new(alloc);
    let mut rest = expr;
    while let Expr::Bin(op, left, right, span) = rest {
        steps.push(LeftStep {
            op: *op,
            right: expr_in_copy(alloc, names, right.get())?,
            span: *span,
        })?;
        rest = left.get();
    }
    let first = single_in_copy(alloc, names, rest)?;
    Ok(LeftSide { steps, first })
}

#[cycle(rename)]
fn boxed_in_copy(
    alloc: Global,
    names: &NamesInCopy,
    expr: &Boxed<Expr>,
) -> Result<Boxed<Expr>, AllocError>
    ensures { IfOk result (λ copy. copy ≡ expr_in (names_of names.now) expr.now) }
{
    let copy = expr_in_copy(alloc, names, expr.get())?;
    Boxed::new(alloc, copy)
}

#[cycle(rename)]
fn single_in_copy(alloc: Global, names: &NamesInCopy, expr: &Expr) -> Result<Expr, AllocError>
    ensures { IfOk result (λ copy. copy ≡ expr_in (names_of names.now) expr.now) }
{
    match expr {
        Expr::Num(number, span) => Ok(Expr::Num(*number, *span)),
        Expr::Bool(truth, span) => Ok(Expr::Bool(*truth, *span)),
        Expr::Var(var) => Ok(Expr::Var(names.variable(alloc, var)?)),
        Expr::Cell(var, at) => {
            let array = names.variable(alloc, var)?;
            Ok(Expr::Cell(array, boxed_in_copy(alloc, names, at)?))
        }
        Expr::Load(access) => Ok(Expr::Load(access_in_copy(alloc, names, access)?)),
        Expr::Neg(e, span) => Ok(Expr::Neg(boxed_in_copy(alloc, names, e)?, *span)),
        Expr::Not(e, span) => Ok(Expr::Not(boxed_in_copy(alloc, names, e)?, *span)),
        Expr::Cast {
            size,
            signed,
            e,
            span,
        } => Ok(Expr::Cast {
            size: *size,
            signed: *signed,
            e: boxed_in_copy(alloc, names, e)?,
            span: *span,
        }),
        Expr::Bin(op, left, right, span) => {
            let first = boxed_in_copy(alloc, names, left)?;
            Ok(Expr::Bin(*op, first, boxed_in_copy(alloc, names, right)?, *span))
        }
    }
}

#[cycle(rename)]
fn access_in_copy(alloc: Global, names: &NamesInCopy, access: &Access) -> Result<Access, AllocError>
    ensures { IfOk result (λ copy. copy ≡ access_in (names_of names.now) access.now) }
{
    Ok(Access {
        size: access.size,
        at: boxed_in_copy(alloc, names, &access.at)?,
        unaligned: access.unaligned,
        span: access.span,
    })
}

/// A left side in the copy.
pub fn lval_in_copy(alloc: Global, names: &NamesInCopy, lval: &Lval) -> Result<Lval, AllocError>
    ensures { IfOk result (λ copy. copy ≡ lval_in (names_of names.now) lval.now) }
{
    match lval {
        Lval::Skip(span) => Ok(Lval::Skip(*span)),
        Lval::Var(var) => Ok(Lval::Var(names.variable(alloc, var)?)),
        Lval::Cell(var, at) => {
            let array = names.variable(alloc, var)?;
            Ok(Lval::Cell(array, boxed_in_copy(alloc, names, at)?))
        }
        Lval::Store(access) => Ok(Lval::Store(access_in_copy(alloc, names, access)?)),
    }
}

/// Expressions in the copy.
pub fn exprs_in_copy(
    alloc: Global,
    names: &NamesInCopy,
    exprs: &Seq<Expr>,
) -> Result<Seq<Expr>, AllocError>
    ensures { IfOk result (λ copy. copy ≡ map (expr_in (names_of names.now)) exprs.now) }
{
    exprs.try_map(alloc, |expr| expr_in_copy(alloc, names, expr))
}

/// Left sides in the copy.
pub fn lvals_in_copy(
    alloc: Global,
    names: &NamesInCopy,
    lvals: &Seq<Lval>,
) -> Result<Seq<Lval>, AllocError>
    ensures { IfOk result (λ copy. copy ≡ map (lval_in (names_of names.now)) lvals.now) }
{
    lvals.try_map(alloc, |lval| lval_in_copy(alloc, names, lval))
}

/// The condition of an assignment in the copy.
pub fn condition_in_copy(
    alloc: Global,
    names: &NamesInCopy,
    cond: &Option<Expr>,
) -> Result<Option<Expr>, AllocError>
    ensures { IfOk result (λ copy. copy ≡ option_map (expr_in (names_of names.now)) cond.now) }
{
    match cond {
        None => Ok(None),
        Some(expr) => Ok(Some(expr_in_copy(alloc, names, expr)?)),
    }
}
