//! The first limits of what a call copies.

ghost use Rattle.std.specs.Prelude.{◌≡◌, IfOk, None, Some};
ghost use Rattle.std.specs.Option.{option_or};
ghost use Rattle.jz_meaning.specs.Assignments as assignments;
ghost use Rattle.jz_meaning.specs.Values.{own_size};
ghost use Rattle.jz_limits.specs.InnerKnown.{numbers_of};
ghost use Rattle.jz_limits.specs.declared.operands.Role.TheVariants as role;
ghost use Rattle.jz_limits.specs.Asked as asks;
ghost use Rattle.jz_tree.specs.Span.{Span as Place};
ghost use Rattle.jz_tree.specs.declared.expr.Expr.TheVariants as expr;
ghost use Rattle.jz_tree.specs.declared.stmt.Lval.TheVariants as lval;
ghost use Rattle.jz_limits.specs.Asked.{asked};
ghost use Rattle.jz_limits.specs.Walks.{copied_to};
ghost use Rattle.jz_limits.specs.InnerLooked.{first, firsts_of};

use crate::known::Known;
use crate::lefts::{ask_left, is_int, is_register, only_int};
use crate::limit::Limit;
use crate::looked::Asking;
use crate::looking::look_variable;
use crate::operands::{Firsts, Role, ask, beside, first_of, firsts_found, without_fields};
use crate::statements::{ask_value, if_free};
use jz_meaning::{kind_of, size_of};
use jz_tree::{Expr, Lval, Size, Var};
use jz_type_names::{is_inline_int, is_register_word, known};
use std::alloc::{AllocError, Global};

/// The first limit of an argument that is copied to its parameter.
pub fn ask_argument(
    alloc: Global,
    numbers: &Known,
    param: &Var,
    arg: &Expr,
) -> Result<Option<Limit>, AllocError>
    ensures { (at : Place) →
        let limits = asked (numbers_of numbers.now) (copied_to (lval.Var param.now) arg.now at) in
        IfOk result (λ found. found ≡ first limits) }
{
    if is_int(param) {
        let set = ask(alloc, numbers, Role::Operand, None, arg)?;
        return Ok(first_of(without_fields(set)));
    }
    let register = is_register_word(known(param));
    let right = ask_value(alloc, numbers, register, size_of(kind_of(param)), None, arg)?;
    Ok(first_of(right))
}

/// The size of a left side, where it has one by itself.
fn left_size(left: &Lval) -> Option<Size>
    ensures { result ≡ assignments.left_size left.now }
{
    match left {
        Lval::Skip(_) => None,
        Lval::Var(var) => size_of(kind_of(var)),
        Lval::Cell(var, _) => size_of(kind_of(var)),
        Lval::Store(access) => access.size,
    }
}

/// The size of an operation that copies a variable to a left side.
#[tactic(auto, using(crate::proofs::Layers::own_var))]
fn copied_size(left: &Lval, var: &Var) -> Option<Size>
    ensures { let value = expr.Var var.now in
        result ≡ option_or (assignments.left_size left.now) (own_size value) }
{
    left_size(left).or(size_of(kind_of(var)))
}

#[tactic(auto, using(crate::proofs::Layers::inline_var))]
fn is_copied_freely(left: &Lval, var: &Var) -> bool
    ensures { let register = asks.to_register (Some left.now) in
        result ≡ asks.is_free register None (expr.Var var.now) }
{
    is_register(left) && is_inline_int(known(var))
}

/// A variable that is copied to a left side.
fn ask_copied(numbers: &Known, left: &Lval, var: &Var) -> Firsts
    ensures { let value = expr.Var var.now in
        let size = option_or (assignments.left_size left.now) (own_size value) in
        let free = asks.is_free (asks.to_register (Some left.now)) None value in
        let parts = asks.value_as (numbers_of numbers.now) free role.Operand size value in
        result ≡ firsts_of parts }
{
    let size = copied_size(left, var);
    let found = look_variable(numbers, Asking { place: None, size }, var);
    let free = is_copied_freely(left, var);
    if_free(free, firsts_found(Role::Operand, size, found))
}

/// The first limit of a result that is copied to its left side.
pub fn ask_result(
    alloc: Global,
    numbers: &Known,
    left: &Lval,
    var: &Var,
) -> Result<Option<Limit>, AllocError>
    ensures { (at : Place) →
        let limits = asked (numbers_of numbers.now) (copied_to left.now (expr.Var var.now) at) in
        IfOk result (λ found. found ≡ first limits) }
{
    match only_int(left) {
        Some(_) => {
            let asking = Asking {
                place: None,
                size: None,
            };
            let set = firsts_found(Role::Operand, None, look_variable(numbers, asking, var));
            Ok(first_of(without_fields(set)))
        }
        None => {
            let lefts = ask_left(alloc, numbers, left)?;
            let parts = beside(lefts, ask_copied(numbers, left, var));
            Ok(first_of(parts))
        }
    }
}
