//! Statements whose cells are scalars.

ghost use Rattle.std.specs.Prelude.{◌≡◌, IfOk};
ghost use Rattle.jz_scalars.specs.Scalars as scalars;

use crate::made::{Made, MadeKind, MadeOne};
use crate::plain::{made_assign, made_for, made_if, made_mark, made_turns, made_until};
use jz_tree::{Seq, Stmt, StmtKind, copy_notes};
use std::alloc::{AllocError, Global};

/// Statements in their order.
#[cycle(made)]
pub(crate) fn made_block(alloc: Global, stmts: &Seq<Stmt>) -> Result<Made, AllocError>
    ensures { IfOk result (λ made. made ≡ scalars.block_made stmts.now) }
{
    let mut made = Seq::new(alloc);
    let mut steps = Seq::new(alloc);
    for stmt in stmts.as_slice() {
        let one = made_statement(alloc, stmt)?;
        let MadeOne { stmt, steps: more } = one;
        made.push(stmt)?;
        steps.append(more)?;
    }
    Ok(Made { stmts: made, steps })
}

#[cycle(made)]
fn made_statement(alloc: Global, stmt: &Stmt) -> Result<MadeOne, AllocError>
    ensures { IfOk result (λ made. made ≡ scalars.statement_made stmt.now) }
{
    let made = made_kind(alloc, &stmt.kind)?;
    let MadeKind { kind, steps } = made;
    let notes = copy_notes(alloc, &stmt.notes)?;
    let span = stmt.span;
    let stmt = Stmt { notes, span, kind };
    Ok(MadeOne { stmt, steps })
}

#[cycle(made)]
fn made_kind(alloc: Global, kind: &StmtKind) -> Result<MadeKind, AllocError>
    ensures { IfOk result (λ made. made ≡ scalars.kind_made kind.now) }
{
    match kind {
        StmtKind::Assign { to, op, rhs, cond } => made_assign(alloc, to, *op, rhs, cond),
        StmtKind::If(cond, holds, other) => {
            let then_part = made_block(alloc, holds)?;
            let else_part = made_block(alloc, other)?;
            let made = made_if(alloc, cond, then_part, else_part)?;
            Ok(made)
        }
        StmtKind::While {
            prologue,
            cond,
            body,
        } => match body {
            None => {
                let before = made_block(alloc, prologue)?;
                let made = made_until(alloc, before, cond)?;
                Ok(made)
            }
            Some(body) => {
                let before = made_block(alloc, prologue)?;
                let turn = made_block(alloc, body)?;
                let made = made_turns(alloc, before, cond, turn)?;
                Ok(made)
            }
        },
        StmtKind::For {
            counter,
            from,
            down,
            to,
            body,
        } => {
            let round = made_block(alloc, body)?;
            let made = made_for(alloc, counter, from, *down, to, round)?;
            Ok(made)
        }
        StmtKind::Mark(vars) => made_mark(alloc, vars),
    }
}
