//! What is found of an expression, by a loop down its left side.

ghost use Rattle.std.specs.Prelude.{◌≡◌, IfOk, Some, true};
ghost use Rattle.jz_tree.specs.LeftSides.{IsSingle};
ghost use Rattle.jz_tree.specs.declared.expr.Expr.TheVariants as expr;
ghost use Rattle.jz_integers.specs.Integers as integers;
ghost use Rattle.jz_limits.specs.InnerKnown.{numbers_of};
ghost use Rattle.jz_limits.specs.InnerLooked.{no_part, seen_as, seen_left, seen_of};
ghost use Rattle.jz_limits.specs.InnerLooked.{cell_found, left_asking, load_found, look_of, pieces_of};

use crate::known::Known;
use crate::looked::{
    Asking, Looked, Pieces, cell_pieces, finished, inner_pieces, load_pieces, no_pieces, operation,
};
use jz_integers::{Constant, Numbers, minus, opposite};
use jz_meaning::own_size;
use jz_tree::{Access, BinOp, Expr, Span, Var};
use jz_type_names::{is_inline_int, known};
use std::alloc::{AllocError, Global};

/// An operation with its right operand.
#[derive(Clone, Copy)]
pub struct Operand {
    pub op: BinOp,
    pub span: Span,
    pub right: Looked,
}

/// The left side of an expression: its operations from the outermost, and the operand where it
/// ends.
#[derive(Drop)]
struct Side {
    operands: Vec<Operand>,
    first: Looked,
}

#[tactic(auto, using(crate::proofs::Sides::last_operand))]
fn joined_side(asking: Asking, side: Side) -> Result<Looked, AllocError>
    ensures { let seen = seen_left asking side.operands.items (seen_of side.first) in
        IfOk result (λ l. seen_of l ≡ seen) }
{
    let Side {
        mut operands,
        mut first,
    } = side;
    while let Some(Operand { op, span, right }) = operands.pop() {
        first = operation(asking, op, span, first, right)?;
    }
    Ok(first)
}

/// A number as a value.
pub fn as_constant(n: Option<i128>) -> Option<Constant>
    ensures { result ≡ integers.number n }
{
    match n {
        None => None,
        Some(n) => Some(Constant::Int(n)),
    }
}

/// A number or a truth that the text has.
fn look_literal(asking: Asking, span: Span, value: Constant) -> Looked
    ensures { seen_of result ≡ seen_as true (Some value) span asking no_part }
{
    finished(asking, span, true, Some(value), no_pieces())
}

/// A variable.
pub fn look_variable(numbers: &Known, asking: Asking, var: &Var) -> Looked
    ensures { seen_of result ≡ look_of (numbers_of numbers.now) asking (expr.Var var.now) }
{
    let value = as_constant(numbers.number(&var.name, var.copy));
    finished(
        asking,
        var.span,
        is_inline_int(known(var)),
        value,
        no_pieces(),
    )
}

/// An expression, also one whose left side is as long as memory lets it be.
#[cycle(look)]
pub fn look(
    alloc: Global,
    numbers: &Known,
    asking: Asking,
    expr: &Expr,
) -> Result<Looked, AllocError>
    ensures { let seen = look_of (numbers_of numbers.now) asking expr.now in
        IfOk result (λ l. seen_of l ≡ seen) }
{
    let side = look_side(alloc, numbers, asking, expr)?;
    let whole = joined_side(asking, side)?;
    Ok(whole)
}

#[cycle(look)]
fn look_side(
    alloc: Global,
    numbers: &Known,
    asking: Asking,
    expr: &Expr,
) -> Result<Side, AllocError>
    ensures { let seen = look_of (numbers_of numbers.now) asking expr.now in
        IfOk result (λ s. seen_left asking s.operands.items (seen_of s.first) ≡ seen) }
{
    let mut operands = Vec::new(alloc);
    let mut rest = expr;
    while let Expr::Bin(op, left, right, span) = rest {
        operands.push(Operand {
            op: *op,
            span: *span,
            right: look(alloc, numbers, asking, right.get())?,
        })?;
        rest = left.get();
    }
    let first = look_single(alloc, numbers, asking, rest)?;
    Ok(Side { operands, first })
}

/// The parts of a cell.
#[cycle(look)]
fn look_index(alloc: Global, numbers: &Known, var: &Var, index: &Expr) -> Result<Pieces, AllocError>
    ensures { let part = cell_found (numbers_of numbers.now) var.now index.now in
        IfOk result (λ p. pieces_of p ≡ part) }
{
    let asking = Asking {
        place: Some(var.span),
        size: None,
    };
    let inner = look(alloc, numbers, asking, index)?;
    Ok(cell_pieces(var, inner))
}

/// The parts of an access to memory.
#[cycle(look)]
fn look_address(alloc: Global, numbers: &Known, span: Span, at: &Expr) -> Result<Pieces, AllocError>
    ensures { let part = load_found (numbers_of numbers.now) span at.now in
        IfOk result (λ p. pieces_of p ≡ part) }
{
    let asking = Asking {
        place: Some(span),
        size: None,
    };
    let inner = look(alloc, numbers, asking, at)?;
    Ok(load_pieces(span, inner))
}

#[cycle(look)]
fn look_single(
    alloc: Global,
    numbers: &Known,
    asking: Asking,
    expr: &Expr,
) -> Result<Looked, AllocError>
    requires { IsSingle expr.now }
    ensures { let seen = look_of (numbers_of numbers.now) asking expr.now in
        IfOk result (λ l. seen_of l ≡ seen) }
{
    match expr {
        Expr::Num(n, span) => Ok(look_literal(asking, *span, Constant::Int(*n))),
        Expr::Bool(truth, span) => Ok(look_literal(asking, *span, Constant::Bool(*truth))),
        Expr::Var(var) => Ok(look_variable(numbers, asking, var)),
        Expr::Cell(var, index) => {
            let pieces = look_index(alloc, numbers, var, index.get())?;
            Ok(finished(asking, var.span, false, None, pieces))
        }
        Expr::Load(access) => {
            let pieces = look_address(alloc, numbers, access.span, access.at.get())?;
            Ok(finished(asking, access.span, false, None, pieces))
        }
        Expr::Neg(e, span) => {
            let inner = look(alloc, numbers, asking, e.get())?;
            let value = minus(inner.value);
            Ok(finished(asking, *span, inner.inline, value, inner_pieces(inner)))
        }
        Expr::Not(e, span) => {
            let inner = look(alloc, numbers, asking, e.get())?;
            let value = opposite(inner.value);
            Ok(finished(asking, *span, inner.inline, value, inner_pieces(inner)))
        }
        Expr::Cast {
            size: _,
            signed: _,
            e,
            span,
        } => {
            let inner_asking = Asking {
                place: asking.place,
                size: own_size(e.get()),
            };
            let inner = look(alloc, numbers, inner_asking, e.get())?;
            Ok(finished(asking, *span, false, None, inner_pieces(inner)))
        }
        Expr::Bin(_, _, _, _) => unreachable!(),
    }
}

/// How a left side is asked: it is no operand.
fn of_left() -> Asking
    ensures { result ≡ left_asking }
{
    Asking {
        place: None,
        size: None,
    }
}

/// A cell on the left.
pub fn look_cell(
    alloc: Global,
    numbers: &Known,
    var: &Var,
    index: &Expr,
) -> Result<Looked, AllocError>
    ensures { let cell = expr.Cell var.now index.now in
        IfOk result (λ l. seen_of l ≡ look_of (numbers_of numbers.now) left_asking cell) }
{
    let pieces = look_index(alloc, numbers, var, index)?;
    Ok(finished(of_left(), var.span, false, None, pieces))
}

/// An access to memory on the left.
pub fn look_load(alloc: Global, numbers: &Known, access: &Access) -> Result<Looked, AllocError>
    ensures { let load = expr.Load access.now in
        IfOk result (λ l. seen_of l ≡ look_of (numbers_of numbers.now) left_asking load) }
{
    let pieces = look_address(alloc, numbers, access.span, access.at.get())?;
    Ok(finished(of_left(), access.span, false, None, pieces))
}
