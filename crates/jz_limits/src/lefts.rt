//! The first limits of left sides.

ghost use Rattle.std.specs.Prelude.{◌≡◌, IfOk, None, Some};
ghost use Rattle.std.specs.Option.{option_copied};
ghost use Rattle.jz_meaning.specs.Assignments as assignments;
ghost use Rattle.jz_meaning.specs.Values.{ref_of};
ghost use Rattle.jz_limits.specs.InnerKnown.{numbers_of};
ghost use Rattle.jz_limits.specs.declared.operands.Role.TheVariants as role;
ghost use Rattle.jz_limits.specs.Asked as asks;
ghost use Rattle.jz_limits.specs.Values as values;
ghost use Rattle.jz_limits.specs.InnerLooked.{firsts_of};

use crate::known::Known;
use crate::looking::{look_cell, look_load};
use crate::operands::{Firsts, Role, beside, firsts_found, no_firsts};
use jz_meaning::{Kind, kind_of};
use jz_tree::{Lval, Seq, Var};
use jz_type_names::{is_register_array, is_register_word, known};
use std::alloc::{AllocError, Global};

/// A left side.
pub fn ask_left(alloc: Global, numbers: &Known, left: &Lval) -> Result<Firsts, AllocError>
    ensures { let access = asks.left_access left.now in
        let parts = asks.asked_if (numbers_of numbers.now) role.Operand None access in
        IfOk result (λ firsts. firsts ≡ firsts_of parts) }
{
    match left {
        Lval::Skip(_) => Ok(no_firsts()),
        Lval::Var(_) => Ok(no_firsts()),
        Lval::Cell(var, index) => {
            let found = look_cell(alloc, numbers, var, index.get())?;
            Ok(firsts_found(Role::Operand, None, found))
        }
        Lval::Store(access) => {
            let found = look_load(alloc, numbers, access)?;
            Ok(firsts_found(Role::Operand, None, found))
        }
    }
}

/// Left sides in their order.
pub fn ask_lefts(alloc: Global, numbers: &Known, lefts: &Seq<Lval>) -> Result<Firsts, AllocError>
    ensures { let parts = asks.left_parts (numbers_of numbers.now) lefts.now in
        IfOk result (λ firsts. firsts ≡ firsts_of parts) }
{
    let mut firsts = no_firsts();
    for left in lefts.as_slice() {
        firsts = beside(firsts, ask_left(alloc, numbers, left)?);
    }
    Ok(firsts)
}

/// Whether a variable is an inline integer.
pub fn is_int(var: &Var) -> bool
    ensures { result ≡ values.is_int (ref_of var.now).kind }
{
    match kind_of(var) {
        Kind::Int => true,
        Kind::Undeclared => false,
        Kind::Bool => false,
        Kind::Word(_) => false,
        Kind::Array(_, _) => false,
    }
}

/// The inline variable that a left side is.
pub fn only_int(left: &Lval) -> Option<&Var>
    ensures { option_copied result ≡ values.only_int left.now }
{
    match left {
        Lval::Skip(_) => None,
        Lval::Var(var) => if is_int(var) { Some(var) } else { None },
        Lval::Cell(_, _) => None,
        Lval::Store(_) => None,
    }
}

/// The inline variable that is set, where nothing else is.
pub fn inline_target(lefts: &Seq<Lval>) -> Option<&Var>
    ensures { option_copied result ≡ values.inline_target lefts.now }
{
    match lefts.as_slice() {
        [] => None,
        [left] => only_int(left),
        [_, _, ..] => None,
    }
}

/// Whether a left side is a word register or a cell of a register array.
pub fn is_register(left: &Lval) -> bool
    ensures { result ≡ asks.to_register (Some left.now) }
{
    match left {
        Lval::Skip(_) => false,
        Lval::Var(var) => is_register_word(known(var)),
        Lval::Cell(var, _) => is_register_array(known(var)),
        Lval::Store(_) => false,
    }
}

/// Whether the last left side is one.
#[tactic(auto, using(crate::proofs::PartLemmas::last_is))]
pub fn goes_to_register(lefts: &Seq<Lval>) -> bool
    ensures { result ≡ asks.to_register (assignments.last_left lefts.now) }
{
    match lefts.as_slice().last() {
        None => false,
        Some(left) => is_register(left),
    }
}
