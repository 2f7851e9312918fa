//! Which names a walk over statements surely sets, and its earliest read of one that is not.

ghost use Rattle.std.specs.Prelude.{◌≡◌, ◌++◌, IfOk, OnOk};
ghost use Rattle.jz_type_names.specs.Order.{earlier};
ghost use Rattle.jz_type_storage.specs.Paths.{setting, setting_all, turns_of, flow_of_all};
ghost use Rattle.jz_type_storage.specs.Paths.{reading_expr};
ghost use Rattle.jz_type_storage.specs.InnerWalks.{flow_of_kind, unset_read};
ghost use Rattle.jz_type_storage.specs.InnerWalks.{members, Walks, HasWalked, flow_of_assigned};

use crate::reads::{in_condition, in_expr, in_old, in_right};
use crate::sets::{join, put};
use indexmap::IndexSet;
use jz_tree::{BinOp, Expr, Lval, Rhs, Seq, Span, Stmt, StmtKind, Text};
use jz_type_names::earlier_of;
use std::alloc::{AllocError, Global};

/// A left side: its index or address is read, and then it is set.
fn set_left(
    alloc: Global,
    asked: &IndexSet<Text>,
    set: &mut IndexSet<Text>,
    to: &Lval,
) -> Result<Option<Span>, AllocError>
    ensures { HasWalked result asked.now.keys (setting to.now) set.old.keys set.new.keys }
{
    match to {
        Lval::Skip(_) => Ok(None),
        Lval::Var(var) => {
            put(asked, set, &var.name)?;
            Ok(None)
        }
        Lval::Cell(_, at) => {
            let found = in_expr(alloc, asked, &*set, at.get())?;
            Ok(found)
        }
        Lval::Store(access) => {
            let found = in_expr(alloc, asked, &*set, access.at.get())?;
            Ok(found)
        }
    }
}

fn set_lefts(
    alloc: Global,
    asked: &IndexSet<Text>,
    set: &mut IndexSet<Text>,
    to: &[Lval],
) -> Result<Option<Span>, AllocError>
    ensures { HasWalked result asked.now.keys (setting_all to.now) set.old.keys set.new.keys }
{
    let mut best = None;
    for lval in to {
        best = earlier_of(best, set_left(alloc, asked, set, lval)?);
    }
    Ok(best)
}

/// What an assignment says: its left sides, the operation, the right side and the condition.
#[derive(Clone, Copy)]
struct Assigned<'a> {
    to: &'a Seq<Lval>,
    op: &'a Option<BinOp>,
    rhs: &'a Rhs,
    cond: &'a Option<Expr>,
}

fn assign(
    alloc: Global,
    asked: &IndexSet<Text>,
    set: &mut IndexSet<Text>,
    it: Assigned,
) -> Result<Option<Span>, AllocError>
    ensures { let flow = flow_of_assigned it.entry in
        HasWalked result asked.now.keys flow set.old.keys set.new.keys }
{
    let right = in_right(alloc, asked, &*set, it.rhs)?;
    let test = in_condition(alloc, asked, &*set, it.cond)?;
    let old = in_old(asked, &*set, it.op, it.cond, it.to.as_slice());
    let left = set_lefts(alloc, asked, set, it.to.as_slice())?;
    Ok(earlier_of(right, earlier_of(test, earlier_of(old, left))))
}

/// What one way found, and the names that it set.
#[derive(Drop)]
struct Way {
    first: Option<Span>,
    names: IndexSet<Text>,
}

#[cycle(walk)]
pub(crate) fn walk_all(
    alloc: Global,
    asked: &IndexSet<Text>,
    set: &mut IndexSet<Text>,
    stmts: &Seq<Stmt>,
) -> Result<Option<Span>, AllocError>
    ensures { HasWalked result asked.now.keys (flow_of_all stmts.now) set.old.keys set.new.keys }
{
    let mut best = None;
    for stmt in stmts.as_slice() {
        best = earlier_of(best, walk(alloc, asked, set, &stmt.kind)?);
    }
    Ok(best)
}

/// Walks over statements, and takes back what they set.
#[cycle(walk)]
fn aside(
    alloc: Global,
    asked: &IndexSet<Text>,
    set: &mut IndexSet<Text>,
    stmts: &Seq<Stmt>,
) -> Result<Way, AllocError>
    ensures walks { IfOk result (λ way. Walks (members asked.now.keys) (flow_of_all stmts.now)
        set.old.keys way.first (set.old.keys ++ way.names.keys)) }
    ensures kept { OnOk result (set.new.keys ≡ set.old.keys) }
{
    let start = set.len();
    let first = walk_all(alloc, asked, set, stmts)?;
    let names = set.split_off(start)?;
    Ok(Way { first, names })
}

/// The turns of a `for`, and what they set is taken back.
#[cycle(walk)]
fn turns(
    alloc: Global,
    asked: &IndexSet<Text>,
    set: &mut IndexSet<Text>,
    counter: &Text,
    body: &Seq<Stmt>,
) -> Result<Option<Span>, AllocError>
    ensures { let flow = turns_of counter.now (flow_of_all body.now) in
        HasWalked result asked.now.keys flow set.old.keys set.new.keys }
{
    let start = set.len();
    put(asked, set, counter)?;
    let first = walk_all(alloc, asked, set, body)?;
    set.truncate(start);
    Ok(first)
}

/// The earliest read in the bounds of a `for`.
fn in_bounds(
    alloc: Global,
    asked: &IndexSet<Text>,
    set: &IndexSet<Text>,
    from: &Expr,
    to: &Expr,
) -> Result<Option<Span>, AllocError>
    ensures { IfOk result (λ at. at ≡ earlier
        (unset_read asked.now.keys (reading_expr from.now) set.now.keys)
        (unset_read asked.now.keys (reading_expr to.now) set.now.keys)) }
{
    let one = in_expr(alloc, asked, set, from)?;
    let two = in_expr(alloc, asked, set, to)?;
    Ok(earlier_of(one, two))
}

#[cycle(walk)]
fn walk(
    alloc: Global,
    asked: &IndexSet<Text>,
    set: &mut IndexSet<Text>,
    kind: &StmtKind,
) -> Result<Option<Span>, AllocError>
    ensures { HasWalked result asked.now.keys (flow_of_kind kind.now) set.old.keys set.new.keys }
{
    match kind {
        StmtKind::Assign { to, op, rhs, cond } => {
            assign(alloc, asked, set, Assigned { to, op, rhs, cond })
        }
        StmtKind::If(cond, yes, no) => {
            let test = in_expr(alloc, asked, &*set, cond)?;
            let start = set.len();
            let one = aside(alloc, asked, set, yes)?;
            let two = walk_all(alloc, asked, set, no)?;
            join(alloc, set, start, &one.names)?;
            Ok(earlier_of(test, earlier_of(one.first, two)))
        }
        StmtKind::While {
            prologue,
            cond,
            body,
        } => {
            let first = walk_all(alloc, asked, set, prologue)?;
            let test = in_expr(alloc, asked, &*set, cond)?;
            match body {
                None => Ok(earlier_of(first, test)),
                Some(body) => {
                    let turn = aside(alloc, asked, set, body)?;
                    Ok(earlier_of(first, earlier_of(test, turn.first)))
                }
            }
        }
        StmtKind::For {
            counter,
            from,
            down: _,
            to,
            body,
        } => {
            let bounds = in_bounds(alloc, asked, &*set, from, to)?;
            let rest = turns(alloc, asked, set, &counter.name, body)?;
            Ok(earlier_of(bounds, rest))
        }
        StmtKind::Mark(_) => Ok(None),
    }
}
