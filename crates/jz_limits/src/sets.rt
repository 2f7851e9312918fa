//! What an inline variable is set to.

ghost use Rattle.std.specs.Prelude.{◌≡◌, IfOk};
ghost use Rattle.jz_integers.specs.Integers as integers;
ghost use Rattle.jz_limits.specs.InnerKnown.{numbers_of};
ghost use Rattle.jz_limits.specs.Asked as asks;
ghost use Rattle.jz_limits.specs.InnerSets.{updated_value};

use crate::known::Known;
use crate::looking::as_constant;
use jz_integers::{Constant, Numbers, inline_value, joined};
use jz_meaning::is_flag;
use jz_tree::{BinOp, Expr, Var, carries};
use std::alloc::{AllocError, Global};

/// The value of `before inner op flag`, with the operand of the inner operation.
fn carried_value(
    alloc: Global,
    numbers: &Known,
    before: Option<Constant>,
    ops: (BinOp, BinOp),
    inner: &Expr,
    flag: &Expr,
) -> Result<Option<Constant>, AllocError>
    ensures { let first = integers.joined ops.0 before
        (integers.inline_value (numbers_of numbers.now) inner.now) in
        let value = integers.joined ops.1 first
        (integers.inline_value (numbers_of numbers.now) flag.now) in
        IfOk result (λ v. v ≡ value) }
{
    let first = joined(ops.0, before, inline_value(alloc, numbers, inner)?);
    let second = inline_value(alloc, numbers, flag)?;
    Ok(joined(ops.1, first, second))
}

/// The value of what an operation makes of a value and an expression.
fn updated(
    alloc: Global,
    numbers: &Known,
    op: BinOp,
    before: Option<Constant>,
    value: &Expr,
) -> Result<Option<Constant>, AllocError>
    ensures { let after = updated_value (numbers_of numbers.now) op before value.now in
        IfOk result (λ v. v ≡ after) }
{
    if let Expr::Bin(outer, inner, flag, _) = value {
        if carries(op, *outer) && is_flag(flag.get()) {
            let ops = (op, *outer);
            let carried = carried_value(alloc, numbers, before, ops, inner.get(), flag.get())?;
            return Ok(carried);
        }
    }
    let operand = inline_value(alloc, numbers, value)?;
    Ok(joined(op, before, operand))
}

/// What an inline variable is set to.
pub fn value_set(
    alloc: Global,
    numbers: &Known,
    var: &Var,
    op: Option<BinOp>,
    value: &Expr,
) -> Result<Option<Constant>, AllocError>
    ensures { let set = asks.set_value (numbers_of numbers.now) var.now op value.now in
        IfOk result (λ v. v ≡ set) }
{
    match op {
        None => inline_value(alloc, numbers, value),
        Some(op) => {
            let before = as_constant(numbers.number(&var.name, var.copy));
            let set = updated(alloc, numbers, op, before, value)?;
            Ok(set)
        }
    }
}
