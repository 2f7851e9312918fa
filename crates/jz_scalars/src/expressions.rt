//! Expressions whose cells are scalars, by a loop down the left side of an expression.

ghost use Rattle.std.specs.Prelude.{◌≡◌, IfOk, map, option_map};
ghost use Rattle.jz_tree.specs.LeftSides.{on_left};
ghost use Rattle.jz_arrays.specs.Cells as cells;

use crate::cells::{register_cell, scalar};
use jz_tree::{Access, Boxed, Expr, LeftSide, LeftStep, Seq, Var};
use std::alloc::{AllocError, Global};

/// The cell of an array at a place: a scalar, or a cell at this index.
fn cell_or(alloc: Global, array: &Var, at: &Expr, index: Boxed<Expr>) -> Result<Expr, AllocError>
    ensures { let size = cells.size_at array.now in
        let number = cells.cell_in array.now at.now in
        IfOk result (λ made. made ≡ cells.cell_or array.now index size number) }
{
    match register_cell(array, at) {
        Some(cell) => Ok(Expr::Var(scalar(alloc, array, cell)?)),
        None => {
            let array = array.copy(alloc)?;
            Ok(Expr::Cell(array, index))
        }
    }
}

/// An expression with scalars.
#[cycle(scalars)]
pub(crate) fn with_scalars(alloc: Global, expr: &Expr) -> Result<Expr, AllocError>
    ensures { IfOk result (λ made. made ≡ cells.with_scalars expr.now) }
{
    let side = side_with_scalars(alloc, expr)?;
    let made = side.into_expr(alloc)?;
    Ok(made)
}

#[cycle(scalars)]
fn side_with_scalars(alloc: Global, expr: &Expr) -> Result<LeftSide, AllocError>
    ensures { let whole = cells.with_scalars expr.now in
        IfOk result (λ side. on_left side.steps.items side.first ≡ whole) }
{
    let mut steps = Vec::new(alloc);
    let mut rest = expr;
    while let Expr::Bin(op, left, right, span) = rest {
        steps.push(LeftStep {
            op: *op,
            right: with_scalars(alloc, right.get())?,
            span: *span,
        })?;
        rest = left.get();
    }
    let first = single_with_scalars(alloc, rest)?;
    Ok(LeftSide { steps, first })
}

#[cycle(scalars)]
pub(crate) fn boxed_with_scalars(
    alloc: Global,
    expr: &Boxed<Expr>,
) -> Result<Boxed<Expr>, AllocError>
    ensures { IfOk result (λ made. made ≡ cells.with_scalars expr.now) }
{
    let made = with_scalars(alloc, expr.get())?;
    Boxed::new(alloc, made)
}

#[cycle(scalars)]
fn single_with_scalars(alloc: Global, expr: &Expr) -> Result<Expr, AllocError>
    ensures { IfOk result (λ made. made ≡ cells.with_scalars expr.now) }
{
    match expr {
        Expr::Num(number, span) => Ok(Expr::Num(*number, *span)),
        Expr::Bool(truth, span) => Ok(Expr::Bool(*truth, *span)),
        Expr::Var(var) => Ok(Expr::Var(var.copy(alloc)?)),
        Expr::Cell(array, at) => {
            let index = boxed_with_scalars(alloc, at)?;
            let cell = cell_or(alloc, array, at.get(), index)?;
            Ok(cell)
        }
        Expr::Load(access) => Ok(Expr::Load(access_with_scalars(alloc, access)?)),
        Expr::Neg(e, span) => Ok(Expr::Neg(boxed_with_scalars(alloc, e)?, *span)),
        Expr::Not(e, span) => Ok(Expr::Not(boxed_with_scalars(alloc, e)?, *span)),
        Expr::Cast {
            size,
            signed,
            e,
            span,
        } => Ok(Expr::Cast {
            size: *size,
            signed: *signed,
            e: boxed_with_scalars(alloc, e)?,
            span: *span,
        }),
        Expr::Bin(op, left, right, span) => {
            let first = boxed_with_scalars(alloc, left)?;
            Ok(Expr::Bin(*op, first, boxed_with_scalars(alloc, right)?, *span))
        }
    }
}

#[cycle(scalars)]
pub(crate) fn access_with_scalars(alloc: Global, access: &Access) -> Result<Access, AllocError>
    ensures { IfOk result (λ made. made ≡ cells.access_with_scalars access.now) }
{
    Ok(Access {
        size: access.size,
        at: boxed_with_scalars(alloc, &access.at)?,
        unaligned: access.unaligned,
        span: access.span,
    })
}

/// Expressions with scalars.
pub(crate) fn all_with_scalars(alloc: Global, exprs: &Seq<Expr>) -> Result<Seq<Expr>, AllocError>
    ensures { IfOk result (λ made. made ≡ map cells.with_scalars exprs.now) }
{
    exprs.try_map(alloc, |expr| with_scalars(alloc, expr))
}

/// The condition of an assignment with scalars.
pub(crate) fn condition_with_scalars(
    alloc: Global,
    cond: &Option<Expr>,
) -> Result<Option<Expr>, AllocError>
    ensures { IfOk result (λ made. made ≡ option_map cells.with_scalars cond.now) }
{
    match cond {
        None => Ok(None),
        Some(expr) => Ok(Some(with_scalars(alloc, expr)?)),
    }
}
