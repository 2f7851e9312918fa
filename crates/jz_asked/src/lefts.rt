//! Conditions of left sides.

ghost use Rattle.std.specs.Prelude.{◌≡◌, IfOk, None};
ghost use Rattle.std.specs.Option.{option_copied};
ghost use Rattle.jz_meaning.specs.Assignments as assignments;
ghost use Rattle.jz_meaning.specs.Values.{access_of};
ghost use Rattle.jz_inside.specs.Said.{given_in, facts_in};
ghost use Rattle.jz_alarms.specs.Conditions as conditions;
ghost use Rattle.jz_asked.specs.InnerAsked.{shown};

use crate::alarms::{Asked, first_of};
use crate::cells::{asks_index, asks_variable};
use crate::terms::{asks, asks_cell, asks_load};
use jz_fact_sets::Saying;
use jz_tree::{Access, Expr, Lval, Seq};
use std::alloc::{AllocError, Global};
use x64_insn::Size;

/// Of a left side that is written: the index and its bounds, or the address.
fn asks_left<'e>(
    alloc: Global,
    says: Saying<'_, '_>,
    size: Option<Size>,
    to: &'e Lval,
) -> Result<Option<Asked<'e>>, AllocError>
    ensures { IfOk result (λ found. shown found ≡ conditions.asks_left (given_in says.entry)
        (facts_in says.entry) size to.now) }
{
    match to {
        Lval::Skip(_) => Ok(None),
        Lval::Var(_) => Ok(None),
        Lval::Cell(var, index) => {
            let found = asks(alloc, says, Some(Size::S64), index.get())?;
            Ok(first_of(found, asks_index(says, var, index.get())))
        }
        Lval::Store(access) => {
            let found = asks_load(alloc, says, size, access)?;
            Ok(found)
        }
    }
}

/// Of several left sides.
pub(crate) fn asks_lefts<'e>(
    alloc: Global,
    says: Saying<'_, '_>,
    size: Option<Size>,
    to: &'e Seq<Lval>,
) -> Result<Option<Asked<'e>>, AllocError>
    ensures { IfOk result (λ found. shown found ≡ conditions.asks_lefts (given_in says.entry)
        (facts_in says.entry) size to.now) }
{
    for left in to.as_slice() {
        let found = asks_left(alloc, says, size, left)?;
        match found {
            None => {}
            Some(asked) => return Ok(Some(asked)),
        }
    }
    Ok(None)
}

/// The size that an access says.
fn written_size(access: &Access) -> Option<Size>
    ensures { result ≡ (access_of access.now).size }
{
    access.size
}

/// Of the old value of a left side.
fn asks_read<'e>(
    alloc: Global,
    says: Saying<'_, '_>,
    to: &'e Lval,
) -> Result<Option<Asked<'e>>, AllocError>
    ensures { IfOk result (λ found. shown found ≡ conditions.asks_if (given_in says.entry)
        (facts_in says.entry) (assignments.left_size to.now) (assignments.as_expr to.now)) }
{
    match to {
        Lval::Skip(_) => Ok(None),
        Lval::Var(var) => Ok(asks_variable(says, var)),
        Lval::Cell(var, index) => {
            let found = asks_cell(alloc, says, var, index.get())?;
            Ok(found)
        }
        Lval::Store(access) => {
            let found = asks_load(alloc, says, written_size(access), access)?;
            Ok(found)
        }
    }
}

#[tactic(auto, using(jz_run_assign::proofs::LastLeft::last_is))]
fn last_left(to: &Seq<Lval>) -> Option<&Lval>
    ensures { option_copied result ≡ assignments.last_left to.now }
{
    to.as_slice().last()
}

/// Of the old value of the last left side, where an assignment has a condition.
pub(crate) fn asks_old<'e>(
    alloc: Global,
    says: Saying<'_, '_>,
    cond: &Option<Expr>,
    to: &'e Seq<Lval>,
) -> Result<Option<Asked<'e>>, AllocError>
    ensures { IfOk result (λ found. shown found ≡ conditions.asks_old (given_in says.entry)
        (facts_in says.entry) cond.now (assignments.last_left to.now)) }
{
    match cond {
        None => Ok(None),
        Some(_) => match last_left(to) {
            None => Ok(None),
            Some(left) => {
                let found = asks_read(alloc, says, left)?;
                Ok(found)
            }
        },
    }
}

/// Of a condition, if there is one.
pub(crate) fn asks_if<'e>(
    alloc: Global,
    says: Saying<'_, '_>,
    cond: &'e Option<Expr>,
) -> Result<Option<Asked<'e>>, AllocError>
    ensures { IfOk result (λ found. shown found ≡ conditions.asks_if (given_in says.entry)
        (facts_in says.entry) None cond.now) }
{
    match cond {
        None => Ok(None),
        Some(cond) => {
            let found = asks(alloc, says, None, cond)?;
            Ok(found)
        }
    }
}

/// Of several operands.
pub(crate) fn asks_each<'e>(
    alloc: Global,
    says: Saying<'_, '_>,
    size: Option<Size>,
    operands: &'e [Expr],
) -> Result<Option<Asked<'e>>, AllocError>
    ensures { IfOk result (λ found. shown found ≡ conditions.asks_each (given_in says.entry)
        (facts_in says.entry) size operands.now) }
{
    for operand in operands {
        let found = asks(alloc, says, size, operand)?;
        match found {
            None => {}
            Some(asked) => return Ok(Some(asked)),
        }
    }
    Ok(None)
}
