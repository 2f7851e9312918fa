//! The statements of a body and of what it calls, one by one, until there are too many.

ghost use Rattle.std.specs.Prelude.{◌≤◌, ◌+◌, ◌++◌, ◌∷◌};
ghost use Rattle.jz_meaning.specs.Runs.{statement_tree};
ghost use Rattle.jz_copies.specs.Counts.{most_statements};
ghost use Rattle.jz_copies.specs.InnerCounts.{callees_in, piece_depths, block_depths, some_depths};
ghost use Rattle.jz_copies.specs.InnerCounts.{named_depths, right_depths, IsWalked};

use crate::callable::Callable;
use crate::extent::{CopyLimit, Extent, one_more};
use jz_tree::{BinOp, Expr, Rhs, Seq, Stmt, StmtKind, Text};

/// Statements in their order, at this depth, where calls may be so deep.
#[cycle(count)]
pub(crate) fn count_block(
    callable: &Callable<'_>,
    left: usize,
    depth: usize,
    stmts: &Seq<Stmt>,
    before: Extent,
) -> Result<Extent, CopyLimit>
    requires few { before.count ≤ most_statements }
    requires near { depth ≤ before.count + 1 }
    ensures { let callees = callees_in callable.now left in
        IsWalked before (block_depths callees depth stmts.now) result }
{
    let mut extent = before;
    for stmt in stmts.as_slice() {
        match count_statement(callable, left, depth, stmt, extent) {
            Err(limit) => return Err(limit),
            Ok(more) => extent = more,
        }
    }
    Ok(extent)
}

#[cycle(count)]
fn count_statement(
    callable: &Callable<'_>,
    left: usize,
    depth: usize,
    stmt: &Stmt,
    before: Extent,
) -> Result<Extent, CopyLimit>
    requires few { before.count ≤ most_statements }
    requires near { depth ≤ before.count + 1 }
    ensures { let callees = callees_in callable.now left in
        IsWalked before (piece_depths depth (statement_tree callees stmt.now)) result }
{
    match &stmt.kind {
        StmtKind::Assign {
            to: _,
            op,
            rhs,
            cond,
        } => {
            let walked = count_assign(callable, left, depth, *op, rhs, cond, before);
            walked
        }
        StmtKind::If(_, holds, other) => {
            let walked = count_two(callable, left, depth, holds, other, before);
            walked
        }
        StmtKind::While {
            prologue,
            cond: _,
            body,
        } => {
            let walked = count_while(callable, left, depth, prologue, body, before);
            walked
        }
        StmtKind::For {
            counter: _,
            from: _,
            down: _,
            to: _,
            body,
        } => {
            let walked = count_one(callable, left, depth, body, before);
            walked
        }
        StmtKind::Mark(_) => Ok(before),
    }
}

/// An assignment, with what it calls.
#[cycle(count)]
fn count_assign(
    callable: &Callable<'_>,
    left: usize,
    depth: usize,
    op: Option<BinOp>,
    rhs: &Rhs,
    cond: &Option<Expr>,
    before: Extent,
) -> Result<Extent, CopyLimit>
    requires few { before.count ≤ most_statements }
    requires near { depth ≤ before.count + 1 }
    ensures { let callees = callees_in callable.now left in
        IsWalked before (depth ∷ right_depths callees depth op rhs.now cond.now) result }
{
    match rhs {
        Rhs::Value(_) => {
            let walked = one_more(before, depth);
            walked
        }
        Rhs::Call(name, _, _) => {
            let walked = count_call(callable, left, depth, op, name, cond, before);
            walked
        }
        Rhs::Intrinsic(_, _, _) => {
            let walked = one_more(before, depth);
            walked
        }
    }
}

#[cycle(count)]
fn count_call(
    callable: &Callable<'_>,
    left: usize,
    depth: usize,
    op: Option<BinOp>,
    name: &Text,
    cond: &Option<Expr>,
    before: Extent,
) -> Result<Extent, CopyLimit>
    requires few { before.count ≤ most_statements }
    requires near { depth ≤ before.count + 1 }
    ensures { let callees = callees_in callable.now left in
        IsWalked before (depth ∷ named_depths callees depth op name.now cond.now) result }
{
    match callable.called(left, op, name, cond) {
        None => {
            let walked = one_more(before, depth);
            walked
        }
        Some(fun) => {
            let walked = count_one(callable, left - 1, depth, &fun.body, before);
            walked
        }
    }
}

/// A statement with a body in it.
#[cycle(count)]
fn count_one(
    callable: &Callable<'_>,
    left: usize,
    depth: usize,
    body: &Seq<Stmt>,
    before: Extent,
) -> Result<Extent, CopyLimit>
    requires few { before.count ≤ most_statements }
    requires near { depth ≤ before.count + 1 }
    ensures { let callees = callees_in callable.now left in
        IsWalked before (depth ∷ block_depths callees (depth + 1) body.now) result }
{
    match one_more(before, depth) {
        Err(limit) => Err(limit),
        Ok(extent) => {
            let walked = count_block(callable, left, depth + 1, body, extent);
            walked
        }
    }
}

/// A statement with two bodies in it.
#[cycle(count)]
fn count_two(
    callable: &Callable<'_>,
    left: usize,
    depth: usize,
    first: &Seq<Stmt>,
    second: &Seq<Stmt>,
    before: Extent,
) -> Result<Extent, CopyLimit>
    requires few { before.count ≤ most_statements }
    requires near { depth ≤ before.count + 1 }
    ensures { let callees = callees_in callable.now left in
        let inner = depth + 1 in
        let both = block_depths callees inner first.now ++ block_depths callees inner second.now in
        IsWalked before (depth ∷ both) result }
{
    match count_one(callable, left, depth, first, before) {
        Err(limit) => Err(limit),
        Ok(extent) => {
            let walked = count_block(callable, left, depth + 1, second, extent);
            walked
        }
    }
}

/// A `while`, of which the body may be absent.
#[cycle(count)]
fn count_while(
    callable: &Callable<'_>,
    left: usize,
    depth: usize,
    prologue: &Seq<Stmt>,
    body: &Option<Seq<Stmt>>,
    before: Extent,
) -> Result<Extent, CopyLimit>
    requires few { before.count ≤ most_statements }
    requires near { depth ≤ before.count + 1 }
    ensures { let callees = callees_in callable.now left in
        let inner = depth + 1 in
        let both = block_depths callees inner prologue.now ++ some_depths callees inner body.now in
        IsWalked before (depth ∷ both) result }
{
    match body {
        None => {
            let walked = count_one(callable, left, depth, prologue, before);
            walked
        }
        Some(body) => {
            let walked = count_two(callable, left, depth, prologue, body, before);
            walked
        }
    }
}
