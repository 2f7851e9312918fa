//! The first limit that one statement passes.

ghost use Rattle.std.specs.Prelude.{◌≡◌, IfOk};
ghost use Rattle.std.specs.Option.{option_or};
ghost use Rattle.jz_tree.specs.Span.{Span as Place};
ghost use Rattle.jz_meaning.specs.Intrinsics as intrinsics;
ghost use Rattle.jz_meaning.specs.Statements.{assign, instruction};
ghost use Rattle.jz_meaning.specs.Values.{own_size};
ghost use Rattle.jz_limits.specs.InnerKnown.{numbers_of};
ghost use Rattle.jz_limits.specs.Asked as asks;
ghost use Rattle.jz_limits.specs.Asked.{asked};
ghost use Rattle.jz_limits.specs.InnerLooked.{first, firsts_of, firsts_if_free};

use crate::known::Known;
use crate::lefts::{ask_lefts, goes_to_register, inline_target};
use crate::limit::Limit;
use crate::looked::if_not;
use crate::operands::{
    Firsts, Role, ask, ask_all, ask_if, beside, first_of, roles_of, value_role, without_fields,
};
use crate::sets::value_set;
use jz_meaning::own_size;
use jz_run_assign::left_sizes;
use jz_tree::{BinOp, Expr, Instance, Intrinsic, Lval, Seq, Size, Text, Var, spelled};
use jz_type_names::is_inline;
use std::alloc::{AllocError, Global};

fn first_size(operands: &[Expr]) -> Option<Size>
    ensures { result ≡ intrinsics.first_size operands.now }
{
    for operand in operands {
        let size = own_size(operand);
        if size.is_some() {
            return size;
        }
    }
    None
}

fn size_by(instance: Option<Instance>, to: &Seq<Lval>, operands: &[Expr]) -> Option<Size>
    ensures { result ≡ asks.size_by instance to.now operands.now }
{
    match instance {
        None => None,
        Some(instance) => match instance.name {
            Intrinsic::Setcc => Some(Size::S8),
            Intrinsic::Lea => Some(Size::S64),
            _ => instance.size.or(left_sizes(to).or(first_size(operands))),
        },
    }
}

/// What goes to a register by itself needs no field.
pub fn if_free(free: bool, firsts: Firsts) -> Firsts
    ensures { result ≡ firsts_if_free free firsts }
{
    if free { without_fields(firsts) } else { firsts }
}

/// Whether it is a number by itself that goes to a register.
fn is_free(register: bool, op: Option<BinOp>, value: &Expr) -> bool
    ensures { result ≡ asks.is_free register op value.now }
{
    match op {
        None => register && is_inline(value),
        Some(_) => false,
    }
}

/// The value that left sides of this size get: a register, or another place.
pub fn ask_value(
    alloc: Global,
    numbers: &Known,
    register: bool,
    size: Option<Size>,
    op: Option<BinOp>,
    value: &Expr,
) -> Result<Firsts, AllocError>
    ensures { let free = asks.is_free register op value.now in
        let wanted = option_or size (own_size value.now) in
        let parts = asks.value_as (numbers_of numbers.now) free (asks.value_role op) wanted
        value.now in
        IfOk result (λ firsts. firsts ≡ firsts_of parts) }
{
    let wanted = size.or(own_size(value));
    let firsts = ask(alloc, numbers, value_role(op), wanted, value)?;
    Ok(if_free(is_free(register, op, value), firsts))
}

/// What sets one inline variable.
fn ask_set(
    alloc: Global,
    numbers: &Known,
    var: &Var,
    op: Option<BinOp>,
    value: &Expr,
) -> Result<Firsts, AllocError>
    ensures { let parts = asks.set_parts (numbers_of numbers.now) var.now op value.now in
        IfOk result (λ firsts. firsts ≡ firsts_of parts) }
{
    let firsts = ask(alloc, numbers, Role::Operand, None, value)?;
    match op {
        None => Ok(firsts),
        Some(_) => {
            let set = value_set(alloc, numbers, var, op, value)?;
            Ok(Firsts {
                width: if_not(set.is_some(), Limit::InlineWidth(var.span)),
                range: firsts.range,
                field: None,
            })
        }
    }
}

/// The first limit of an assignment.
pub fn ask_assignment(
    alloc: Global,
    numbers: &Known,
    to: &Seq<Lval>,
    op: Option<BinOp>,
    value: &Expr,
    cond: &Option<Expr>,
) -> Result<Option<Limit>, AllocError>
    ensures { (at : Place) →
        let limits = asked (numbers_of numbers.now) (assign to.now op value.now cond.now at) in
        IfOk result (λ found. found ≡ first limits) }
{
    let test = ask_if(alloc, numbers, cond)?;
    match inline_target(to) {
        Some(var) => {
            let set = ask_set(alloc, numbers, var, op, value)?;
            let parts = beside(set, test);
            Ok(first_of(without_fields(parts)))
        }
        None => {
            let lefts = ask_lefts(alloc, numbers, to)?;
            let register = goes_to_register(to);
            let right = ask_value(alloc, numbers, register, left_sizes(to), op, value)?;
            let behind = beside(right, test);
            let parts = beside(lefts, behind);
            Ok(first_of(parts))
        }
    }
}

/// The first limit of an instruction that is named.
pub fn ask_instruction(
    alloc: Global,
    numbers: &Known,
    to: &Seq<Lval>,
    name: &Text,
    operands: &Seq<Expr>,
) -> Result<Option<Limit>, AllocError>
    ensures { (at : Place) →
        let limits = asked (numbers_of numbers.now) (instruction to.now name.now operands.now at) in
        IfOk result (λ found. found ≡ first limits) }
{
    let instance = spelled(name.as_str());
    let size = size_by(instance, to, operands.as_slice());
    let lefts = ask_lefts(alloc, numbers, to)?;
    let right = ask_all(
        alloc,
        numbers,
        roles_of(instance),
        size,
        operands.as_slice(),
    )?;
    let parts = beside(lefts, right);
    Ok(first_of(parts))
}

/// The first limit of a condition that is not inline.
pub fn ask_condition(
    alloc: Global,
    numbers: &Known,
    cond: &Expr,
) -> Result<Option<Limit>, AllocError>
    ensures { let limits = asks.asked_condition (numbers_of numbers.now) cond.now in
        IfOk result (λ found. found ≡ first limits) }
{
    let firsts = ask(alloc, numbers, Role::Test, None, cond)?;
    Ok(first_of(firsts))
}

/// The first limit of a bound of a `for`.
pub fn ask_bound(alloc: Global, numbers: &Known, bound: &Expr) -> Result<Option<Limit>, AllocError>
    ensures { let limits = asks.widths (numbers_of numbers.now) bound.now in
        IfOk result (λ found. found ≡ first limits) }
{
    let firsts = ask(alloc, numbers, Role::Operand, None, bound)?;
    Ok(firsts.width)
}
