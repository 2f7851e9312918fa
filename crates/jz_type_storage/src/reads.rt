//! The reads of inline variables that are not surely set.

ghost use Rattle.std.specs.Prelude.{◌≡◌, map};
ghost use Rattle.jz_type_names.specs.Scopes.{name_of};
ghost use Rattle.jz_type_names.specs.Lent.{these};
ghost use Rattle.jz_type_storage.specs.Paths.{reading, reading_expr, reading_all, reading_right};
ghost use Rattle.jz_type_storage.specs.Paths.{reading_condition, reading_lefts, reading_left};
ghost use Rattle.jz_type_storage.specs.Paths.{reading_old};
ghost use Rattle.jz_type_storage.specs.InnerSurely.{missing};
ghost use Rattle.jz_type_storage.specs.InnerWalks.{members, unset_read, FindsUnset};

use crate::sets::has;
use indexmap::IndexSet;
use jz_tree::{BinOp, Expr, Lval, Rhs, Span, Text, Var};
use jz_type_names::{earlier_of, names};
use std::alloc::{AllocError, Global};

/// The place of a variable that is asked and is not set.
fn missing(asked: &IndexSet<Text>, set: &IndexSet<Text>, var: &Var) -> Option<Span>
    ensures { result ≡ missing (members asked.now.keys) (name_of var.now) (members set.now.keys) }
{
    if has(asked, &var.name) && !has(set, &var.name) {
        Some(var.span)
    } else {
        None
    }
}

fn among(asked: &IndexSet<Text>, set: &IndexSet<Text>, vars: &[&Var]) -> Option<Span>
    ensures { let read = map name_of (these vars.now) in
        result ≡ unset_read asked.now.keys (reading read) set.now.keys }
{
    let mut best = None;
    for var in vars {
        best = earlier_of(best, missing(asked, set, *var));
    }
    best
}

/// The earliest read in an expression.
#[tactic(auto, unfolding(crate::specs::Paths::reading_expr))]
pub(crate) fn in_expr(
    alloc: Global,
    asked: &IndexSet<Text>,
    set: &IndexSet<Text>,
    expr: &Expr,
) -> Result<Option<Span>, AllocError>
    ensures { FindsUnset result asked.now.keys (reading_expr expr.now) set.now.keys }
{
    let vars = names(alloc, expr)?;
    Ok(among(asked, set, vars.as_slice()))
}

#[tactic(auto, unfolding(crate::specs::Paths::reading_all))]
fn in_all(
    alloc: Global,
    asked: &IndexSet<Text>,
    set: &IndexSet<Text>,
    exprs: &[Expr],
) -> Result<Option<Span>, AllocError>
    ensures { FindsUnset result asked.now.keys (reading_all exprs.now) set.now.keys }
{
    let mut best = None;
    for expr in exprs {
        best = earlier_of(best, in_expr(alloc, asked, set, expr)?);
    }
    Ok(best)
}

pub(crate) fn in_right(
    alloc: Global,
    asked: &IndexSet<Text>,
    set: &IndexSet<Text>,
    from: &Rhs,
) -> Result<Option<Span>, AllocError>
    ensures { FindsUnset result asked.now.keys (reading_right from.now) set.now.keys }
{
    match from {
        Rhs::Value(expr) => in_expr(alloc, asked, set, expr),
        Rhs::Call(_, args, _) => in_all(alloc, asked, set, args.as_slice()),
        Rhs::Intrinsic(_, args, _) => in_all(alloc, asked, set, args.as_slice()),
    }
}

pub(crate) fn in_condition(
    alloc: Global,
    asked: &IndexSet<Text>,
    set: &IndexSet<Text>,
    cond: &Option<Expr>,
) -> Result<Option<Span>, AllocError>
    ensures { FindsUnset result asked.now.keys (reading_condition cond.now) set.now.keys }
{
    match cond {
        None => Ok(None),
        Some(expr) => in_expr(alloc, asked, set, expr),
    }
}

fn in_left(asked: &IndexSet<Text>, set: &IndexSet<Text>, to: &Lval) -> Option<Span>
    ensures { result ≡ unset_read asked.now.keys (reading_left to.now) set.now.keys }
{
    match to {
        Lval::Skip(_) => None,
        Lval::Var(var) => missing(asked, set, var),
        Lval::Cell(_, _) => None,
        Lval::Store(_) => None,
    }
}

#[tactic(auto, unfolding(crate::specs::Paths::reading_lefts))]
fn in_lefts(asked: &IndexSet<Text>, set: &IndexSet<Text>, to: &[Lval]) -> Option<Span>
    ensures { result ≡ unset_read asked.now.keys (reading_lefts to.now) set.now.keys }
{
    let mut best = None;
    for lval in to {
        best = earlier_of(best, in_left(asked, set, lval));
    }
    best
}

/// The earliest read of a left side's old value, which an operation or a condition reads.
pub(crate) fn in_old(
    asked: &IndexSet<Text>,
    set: &IndexSet<Text>,
    op: &Option<BinOp>,
    cond: &Option<Expr>,
    to: &[Lval],
) -> Option<Span>
    ensures { result ≡ unset_read asked.now.keys (reading_old op.now cond.now to.now) set.now.keys }
{
    match op {
        Some(_operation) => in_lefts(asked, set, to),
        None => match cond {
            Some(_condition) => in_lefts(asked, set, to),
            None => None,
        },
    }
}
