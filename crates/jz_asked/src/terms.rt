//! Conditions of expressions, in the order of evaluation. Work is linear in an expression, and
//! recursion goes to the right alone.

ghost use Rattle.std.specs.Prelude.{◌≡◌, Option, IfOk};
ghost use Rattle.std.specs.Option.{option_or};
ghost use Rattle.x64_insn.specs.Size.{Size as AnySize};
ghost use Rattle.jz_tree.specs.LeftSides.{IsSingle};
ghost use Rattle.jz_meaning.specs.Values.{ref_of};
ghost use Rattle.jz_terms.specs.Terms.{cell, load, term_of, place_of, size_in};
ghost use Rattle.jz_inside.specs.Said.{given_in, facts_in};
ghost use Rattle.jz_alarms.specs.Conditions as conditions;
ghost use Rattle.jz_asked.specs.InnerAsked as inner;
ghost use Rattle.jz_asked.specs.InnerAsked.{shown};

use crate::accesses::{asks_access, asks_divisor};
use crate::alarms::{Asked, first_of};
use crate::cells::{asks_element, asks_variable};
use crate::sizes::{left_wanted, size_of};
use jz_fact_sets::Saying;
use jz_meaning::right_wanted;
use jz_tree::{Access, BinOp, Expr, Span, Var};
use std::alloc::{AllocError, Global};
use x64_insn::Size;

/// The first condition of an expression that the facts don't give, where a word of a size is
/// wanted.
#[cycle(asks)]
pub(crate) fn asks<'e>(
    alloc: Global,
    says: Saying<'_, '_>,
    wanted: Option<Size>,
    e: &'e Expr,
) -> Result<Option<Asked<'e>>, AllocError>
    ensures { IfOk result (λ found. shown found ≡ conditions.asks (given_in says.entry)
        (facts_in says.entry) wanted (term_of e.now)) }
{
    let mut found = None;
    let mut inner = wanted;
    let mut rest = e;
    while let Expr::Bin(op, left, right, span) = rest {
        inner = left_wanted(*op, inner, left.get(), right.get());
        let here = asks_behind(alloc, says, *op, inner, right.get(), *span)?;
        found = first_of(here, found);
        rest = left.get();
    }
    let first = asks_single(alloc, says, inner, rest)?;
    Ok(first_of(first, found))
}

/// Of a right operand, and then of the operation itself.
#[cycle(asks)]
fn asks_behind<'e>(
    alloc: Global,
    says: Saying<'_, '_>,
    op: BinOp,
    wanted: Option<Size>,
    right: &'e Expr,
    span: Span,
) -> Result<Option<Asked<'e>>, AllocError>
    ensures { IfOk result (λ found. shown found ≡ inner.asks_behind (given_in says.entry)
        (facts_in says.entry) op wanted (term_of right.now) span) }
{
    let found = asks(alloc, says, right_wanted(op, wanted), right)?;
    Ok(first_of(found, asks_divisor(says, op, wanted, right, span)))
}

/// Of a cell that is read.
#[cycle(asks)]
pub(crate) fn asks_cell<'e>(
    alloc: Global,
    says: Saying<'_, '_>,
    var: &'e Var,
    index: &'e Expr,
) -> Result<Option<Asked<'e>>, AllocError>
    ensures { IfOk result (λ found. (w : Option AnySize) → shown found
        ≡ conditions.asks (given_in says.entry) (facts_in says.entry) w
        (cell (ref_of var.now) (term_of index.now))) }
{
    let found = asks(alloc, says, Some(Size::S64), index)?;
    Ok(first_of(found, asks_element(says, var, index)))
}

/// Of an access to memory, where this is the size of the other side.
#[cycle(asks)]
pub(crate) fn asks_load<'e>(
    alloc: Global,
    says: Saying<'_, '_>,
    wanted: Option<Size>,
    access: &'e Access,
) -> Result<Option<Asked<'e>>, AllocError>
    ensures { IfOk result (λ found. shown found ≡ conditions.asks (given_in says.entry)
        (facts_in says.entry) wanted
        (load (place_of access.now).spot (place_of access.now).at)) }
{
    let found = asks(alloc, says, Some(Size::S64), access.at.get())?;
    let there = asks_access(alloc, says, wanted, access)?;
    Ok(first_of(found, there))
}

#[cycle(asks)]
fn asks_operand<'e>(
    alloc: Global,
    says: Saying<'_, '_>,
    wanted: Option<Size>,
    operand: &'e Expr,
) -> Result<Option<Asked<'e>>, AllocError>
    ensures { IfOk result (λ found. shown found ≡ conditions.asks (given_in says.entry)
        (facts_in says.entry) (option_or wanted (size_in (term_of operand.now)))
        (term_of operand.now)) }
{
    let inner = wanted.or(size_of(operand));
    let found = asks(alloc, says, inner, operand)?;
    Ok(found)
}

#[cycle(asks)]
fn asks_single<'e>(
    alloc: Global,
    says: Saying<'_, '_>,
    wanted: Option<Size>,
    e: &'e Expr,
) -> Result<Option<Asked<'e>>, AllocError>
    requires { IsSingle e.now }
    ensures { IfOk result (λ found. shown found ≡ conditions.asks (given_in says.entry)
        (facts_in says.entry) wanted (term_of e.now)) }
{
    match e {
        Expr::Num(_, _) => Ok(None),
        Expr::Bool(_, _) => Ok(None),
        Expr::Var(var) => Ok(asks_variable(says, var)),
        Expr::Cell(var, index) => {
            let found = asks_cell(alloc, says, var, index.get())?;
            Ok(found)
        }
        Expr::Load(access) => {
            let found = asks_load(alloc, says, wanted, access)?;
            Ok(found)
        }
        Expr::Neg(operand, _) => {
            let found = asks_operand(alloc, says, wanted, operand.get())?;
            Ok(found)
        }
        Expr::Not(operand, _) => {
            let found = asks_operand(alloc, says, wanted, operand.get())?;
            Ok(found)
        }
        Expr::Cast {
            size: _,
            signed: _,
            e: operand,
            span: _,
        } => {
            let found = asks_operand(alloc, says, None, operand.get())?;
            Ok(found)
        }
        Expr::Bin(_, _, _, _) => unreachable!(),
    }
}
