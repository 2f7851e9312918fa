//! Statements as copies of a body have them, each call by the body that it calls.

ghost use Rattle.std.specs.Prelude.{IfOk};
ghost use Rattle.jz_inline.specs.CopiedNames.{names_of};
ghost use Rattle.jz_inline.specs.Statements.{statement_piece};
ghost use Rattle.jz_inlining.specs.InnerCopies.{Adds, Fits, IsCopied, funs_in, block_in};
ghost use Rattle.jz_inlining.specs.InnerCopies.{assignment_piece, called_piece};
ghost use Rattle.jz_inlining.specs.InnerCopies.{if_of, turns_of, until_of, while_of, for_of};

use crate::copier::{Body, Copied, Copier};
use crate::parts::{Assignment, Call, Counter, Test};
use crate::passing::{begin_call, end_call};
use crate::plain::copy_plain;
use crate::whole::{copy_mark, finish_for, finish_if, finish_turns, finish_until};
use jz_change::Step;
use jz_inline::NamesInCopy;
use jz_tree::{Rhs, Seq, Stmt, StmtKind};
use std::alloc::AllocError;

/// Statements in their order, where calls may be so deep. Gives their steps.
#[cycle(copy)]
pub(crate) fn copy_block(
    copier: &Copier<'_>,
    left: usize,
    names: &NamesInCopy,
    stmts: &Seq<Stmt>,
    out: &mut Copied,
) -> Result<Seq<Step>, AllocError>
    requires few { Fits out.old.next (block_in copier.now left stmts.now) }
    ensures { let piece = block_in copier.now left stmts.now in
        IfOk result (Adds piece (names_of names.now) out.old out.new) }
{
    let mut steps = Seq::new(copier.alloc);
    for stmt in stmts.as_slice() {
        let more = copy_statement(copier, left, names, stmt, out)?;
        steps.append(more)?;
    }
    Ok(steps)
}

#[cycle(copy)]
fn copy_statement(
    copier: &Copier<'_>,
    left: usize,
    names: &NamesInCopy,
    stmt: &Stmt,
    out: &mut Copied,
) -> Result<Seq<Step>, AllocError>
    requires few { Fits out.old.next (statement_piece (funs_in copier.now left) stmt.now) }
    ensures { let piece = statement_piece (funs_in copier.now left) stmt.now in
        IfOk result (Adds piece (names_of names.now) out.old out.new) }
{
    match &stmt.kind {
        StmtKind::Assign { to, op, rhs, cond } => {
            let assignment = Assignment::of(stmt, to, *op, cond);
            let steps = copy_assign(copier, left, names, assignment, rhs, out)?;
            Ok(steps)
        }
        StmtKind::If(cond, holds, other) => {
            let test = Test::of(stmt, cond);
            let steps = copy_if(copier, left, names, test, holds, other, out)?;
            Ok(steps)
        }
        StmtKind::While {
            prologue,
            cond,
            body,
        } => {
            let test = Test::of(stmt, cond);
            let steps = copy_while(copier, left, names, test, prologue, body, out)?;
            Ok(steps)
        }
        StmtKind::For {
            counter,
            from,
            down,
            to,
            body,
        } => {
            let counter = Counter::of(stmt, counter, from, *down, to);
            let steps = copy_for(copier, left, names, counter, body, out)?;
            Ok(steps)
        }
        StmtKind::Mark(vars) => {
            let steps = copy_mark(copier.alloc, names, &stmt.notes, stmt.span, vars, out)?;
            Ok(steps)
        }
    }
}

#[cycle(copy)]
fn copy_assign(
    copier: &Copier<'_>,
    left: usize,
    names: &NamesInCopy,
    assignment: Assignment<'_>,
    rhs: &Rhs,
    out: &mut Copied,
) -> Result<Seq<Step>, AllocError>
    requires few { Fits out.old.next
        (assignment_piece (funs_in copier.now left) assignment rhs.now) }
    ensures { let piece = assignment_piece (funs_in copier.now left) assignment.entry rhs.now in
        IfOk result (Adds piece (names_of names.now) out.old out.new) }
{
    match rhs {
        Rhs::Value(_) => {
            let steps = copy_plain(copier, names, assignment, rhs, out)?;
            Ok(steps)
        }
        Rhs::Intrinsic(_, _, _) => {
            let steps = copy_plain(copier, names, assignment, rhs, out)?;
            Ok(steps)
        }
        Rhs::Call(name, args, span) => {
            match copier
                .callable
                .called(left, assignment.op, name, assignment.cond)
            {
                None => {
                    let steps = copy_plain(copier, names, assignment, rhs, out)?;
                    Ok(steps)
                }
                Some(callee) => {
                    let to = assignment.to;
                    let span = *span;
                    let call = Call {
                        to,
                        callee,
                        args,
                        span,
                    };
                    let steps = copy_call(copier, left - 1, names, call, out)?;
                    Ok(steps)
                }
            }
        }
    }
}

/// A call of a function, in whose body calls may be so deep.
#[cycle(copy)]
fn copy_call(
    copier: &Copier<'_>,
    left: usize,
    names: &NamesInCopy,
    call: Call<'_>,
    out: &mut Copied,
) -> Result<Seq<Step>, AllocError>
    requires few { Fits out.old.next (called_piece (funs_in copier.now left) call) }
    ensures { let piece = called_piece (funs_in copier.now left) call.entry in
        IfOk result (Adds piece (names_of names.now) out.old out.new) }
{
    let alloc = copier.alloc;
    let callee = call.callee;
    let inner = names.of_callee(alloc, out.next, &callee.params, call.args)?;
    begin_call(alloc, names, &inner, call, out)?;
    let body = copy_block(copier, left, &inner, &callee.body, out)?;
    let steps = end_call(alloc, names, &inner, call, body, &mut out.stmts)?;
    Ok(steps)
}

/// A body that stands in a statement.
#[cycle(copy)]
pub(crate) fn copy_body(
    copier: &Copier<'_>,
    left: usize,
    names: &NamesInCopy,
    stmts: &Seq<Stmt>,
    next: u32,
) -> Result<Body, AllocError>
    requires few { Fits next (block_in copier.now left stmts.now) }
    ensures { let piece = block_in copier.now left stmts.now in
        IfOk result (IsCopied piece (names_of names.now) next) }
{
    let mut out = Copied {
        stmts: Seq::new(copier.alloc),
        next,
    };
    let steps = copy_block(copier, left, names, stmts, &mut out)?;
    let Copied { stmts, next } = out;
    Ok(Body { stmts, steps, next })
}

#[cycle(copy)]
fn copy_if(
    copier: &Copier<'_>,
    left: usize,
    names: &NamesInCopy,
    test: Test<'_>,
    holds: &Seq<Stmt>,
    other: &Seq<Stmt>,
    out: &mut Copied,
) -> Result<Seq<Step>, AllocError>
    requires few { let pieces = block_in copier.now left in
        Fits out.old.next (if_of test (pieces holds.now) (pieces other.now)) }
    ensures { let pieces = block_in copier.now left in
        let piece = if_of test.entry (pieces holds.now) (pieces other.now) in
        IfOk result (Adds piece (names_of names.now) out.old out.new) }
{
    let then_body = copy_body(copier, left, names, holds, out.next)?;
    let else_body = copy_body(copier, left, names, other, then_body.next)?;
    let steps = finish_if(copier.alloc, names, test, then_body, else_body, out)?;
    Ok(steps)
}

/// A `while`, of which the body may be absent.
#[cycle(copy)]
fn copy_while(
    copier: &Copier<'_>,
    left: usize,
    names: &NamesInCopy,
    test: Test<'_>,
    prologue: &Seq<Stmt>,
    body: &Option<Seq<Stmt>>,
    out: &mut Copied,
) -> Result<Seq<Step>, AllocError>
    requires few { let before = block_in copier.now left prologue.now in
        Fits out.old.next (while_of (funs_in copier.now left) test before body.now) }
    ensures { let before = block_in copier.now left prologue.now in
        let piece = while_of (funs_in copier.now left) test.entry before body.now in
        IfOk result (Adds piece (names_of names.now) out.old out.new) }
{
    match body {
        None => {
            let steps = copy_until(copier, left, names, test, prologue, out)?;
            Ok(steps)
        }
        Some(body) => {
            let steps = copy_turns(copier, left, names, test, prologue, body, out)?;
            Ok(steps)
        }
    }
}

#[cycle(copy)]
fn copy_until(
    copier: &Copier<'_>,
    left: usize,
    names: &NamesInCopy,
    test: Test<'_>,
    prologue: &Seq<Stmt>,
    out: &mut Copied,
) -> Result<Seq<Step>, AllocError>
    requires few { Fits out.old.next (until_of test (block_in copier.now left prologue.now)) }
    ensures { let piece = until_of test.entry (block_in copier.now left prologue.now) in
        IfOk result (Adds piece (names_of names.now) out.old out.new) }
{
    let before = copy_body(copier, left, names, prologue, out.next)?;
    let steps = finish_until(copier.alloc, names, test, before, out)?;
    Ok(steps)
}

#[cycle(copy)]
fn copy_turns(
    copier: &Copier<'_>,
    left: usize,
    names: &NamesInCopy,
    test: Test<'_>,
    prologue: &Seq<Stmt>,
    body: &Seq<Stmt>,
    out: &mut Copied,
) -> Result<Seq<Step>, AllocError>
    requires few { let pieces = block_in copier.now left in
        Fits out.old.next (turns_of test (pieces prologue.now) (pieces body.now)) }
    ensures { let pieces = block_in copier.now left in
        let piece = turns_of test.entry (pieces prologue.now) (pieces body.now) in
        IfOk result (Adds piece (names_of names.now) out.old out.new) }
{
    let before = copy_body(copier, left, names, prologue, out.next)?;
    let turn = copy_body(copier, left, names, body, before.next)?;
    let steps = finish_turns(copier.alloc, names, test, before, turn, out)?;
    Ok(steps)
}

#[cycle(copy)]
fn copy_for(
    copier: &Copier<'_>,
    left: usize,
    names: &NamesInCopy,
    counter: Counter<'_>,
    body: &Seq<Stmt>,
    out: &mut Copied,
) -> Result<Seq<Step>, AllocError>
    requires few { Fits out.old.next (for_of counter (block_in copier.now left body.now)) }
    ensures { let piece = for_of counter.entry (block_in copier.now left body.now) in
        IfOk result (Adds piece (names_of names.now) out.old out.new) }
{
    let round = copy_body(copier, left, names, body, out.next)?;
    let steps = finish_for(copier.alloc, names, counter, round, out)?;
    Ok(steps)
}
