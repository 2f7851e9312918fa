//! The values of inline expressions.

ghost use Rattle.std.specs.Prelude.{◌≡◌, IfOk};
ghost use Rattle.jz_tree.specs.LeftSides.{IsSingle};
ghost use Rattle.jz_integers.specs.Integers as values;
ghost use Rattle.jz_integers.specs.InnerLeftSides.{value_after};

use crate::Constant;
use crate::arithmetic::{inverted, negated, on_integers};
use crate::lookup::Numbers;
use crate::sides::{LeftSide, Waiting, left_side};
use jz_tree::{BinOp, Expr, joins};
use std::alloc::{AllocError, Global};

/// The opposite of a number.
pub fn minus(value: Option<Constant>) -> Option<Constant>
    ensures { result ≡ values.minus value }
{
    match value {
        None => None,
        Some(Constant::Bool(_)) => None,
        Some(Constant::Int(n)) => match negated(n) {
            None => None,
            Some(n) => Some(Constant::Int(n)),
        },
    }
}

/// The complement of a number, or the other truth.
pub fn opposite(value: Option<Constant>) -> Option<Constant>
    ensures { result ≡ values.opposite value }
{
    match value {
        None => None,
        Some(Constant::Bool(truth)) => Some(Constant::Bool(!truth)),
        Some(Constant::Int(n)) => Some(Constant::Int(inverted(n))),
    }
}

pub(super) fn is_settled(op: BinOp, left: Constant) -> bool
    ensures { result ≡ values.is_settled op left }
{
    match (op, left) {
        (BinOp::AndThen, Constant::Bool(truth)) => !truth,
        (BinOp::OrElse, Constant::Bool(truth)) => truth,
        _ => false,
    }
}

pub(super) fn on_both(op: BinOp, left: Constant, right: Constant) -> Option<Constant>
    ensures { result ≡ values.on_both op left right }
{
    match (left, right) {
        (Constant::Int(a), Constant::Int(b)) => on_integers(op, a, b),
        (Constant::Bool(_), Constant::Bool(truth)) => {
            if joins(op) {
                Some(Constant::Bool(truth))
            } else {
                None
            }
        }
        (Constant::Int(_), Constant::Bool(_)) => None,
        (Constant::Bool(_), Constant::Int(_)) => None,
    }
}

/// The value of an expression, also of one whose left side is as long as memory lets it be. None
/// where a part that is asked for has none: where it is no inline expression, where `numbers` has
/// no number, or where its operation gives none.
#[cycle(inline)]
pub fn inline_value<N: Numbers>(
    alloc: Global,
    numbers: &N,
    e: &Expr,
) -> Result<Option<Constant>, AllocError>
    ensures { IfOk result (λ value. value ≡ values.inline_value (N.numbers numbers.now) e.now) }
{
    let LeftSide { mut waiting, first } = left_side(alloc, e)?;
    let mut value = single_value(alloc, numbers, first)?;
    while let Some(Waiting { op, right, span: _ }) = waiting.pop() {
        value = joined_value(alloc, numbers, op, value, right)?;
    }
    Ok(value)
}

#[cycle(inline)]
fn single_value<N: Numbers>(
    alloc: Global,
    numbers: &N,
    e: &Expr,
) -> Result<Option<Constant>, AllocError>
    requires { IsSingle e.now }
    ensures { IfOk result (λ value. value ≡ values.inline_value (N.numbers numbers.now) e.now) }
{
    match e {
        Expr::Num(n, _) => Ok(Some(Constant::Int(*n))),
        Expr::Bool(truth, _) => Ok(Some(Constant::Bool(*truth))),
        Expr::Var(var) => match numbers.number(&var.name, var.copy) {
            None => Ok(None),
            Some(n) => Ok(Some(Constant::Int(n))),
        },
        Expr::Cell(_, _) => Ok(None),
        Expr::Load(_) => Ok(None),
        Expr::Neg(e, _) => {
            let value = inline_value(alloc, numbers, e.get())?;
            Ok(minus(value))
        }
        Expr::Not(e, _) => {
            let value = inline_value(alloc, numbers, e.get())?;
            Ok(opposite(value))
        }
        Expr::Cast { .. } => Ok(None),
        Expr::Bin(_, _, _, _) => unreachable!(),
    }
}

/// The value of an operation whose left part has this value.
#[cycle(inline)]
fn joined_value<N: Numbers>(
    alloc: Global,
    numbers: &N,
    op: BinOp,
    left: Option<Constant>,
    right: &Expr,
) -> Result<Option<Constant>, AllocError>
    ensures { IfOk result (λ value. value ≡ value_after (N.numbers numbers.now) op left right.now) }
{
    let Some(left) = left else { return Ok(None) };
    if is_settled(op, left) {
        return Ok(Some(left));
    }
    match inline_value(alloc, numbers, right)? {
        None => Ok(None),
        Some(right) => Ok(on_both(op, left, right)),
    }
}
