//! Statements as operations.

ghost use Rattle.std.specs.Prelude.{IfOk, ◌∷◌, [], None};
ghost use Rattle.jz_tree.specs.Failures.{IfAnswered};
ghost use Rattle.jz_runs.specs.Trees.{done, op as done_by};
ghost use Rattle.jz_meaning.specs.Runs.{block, statement_tree, assign_tree, instruction_tree};
ghost use Rattle.jz_meaning.specs.Statements.{assign, instruction};
ghost use Rattle.jz_operands.specs.TableHomes.{homes_of};
ghost use Rattle.jz_rows.specs.Rows.{NeverLowers};
ghost use Rattle.jz_lowering.specs.Becoming.{no_callees, Becomes};
ghost use Rattle.jz_lowering.specs.Parts.{does, parts_in, HaveCode};
ghost use Rattle.jz_lowering.specs.InnerParts.{kind_piece};

use crate::operations::{pinned_at, row_at};
use crate::parts::{Lowered, branch, loop_test_at, nothing, test_at, turns};
use jz_instructions::{begins_at, instruction_row};
use jz_operands::Homes;
use jz_pinned_rows::pinned_row_of;
use jz_rows::row_of;
use jz_tree::{BinOp, Expr, Failure, Lval, Rhs, Seq, Span, Stmt, StmtKind, Text};
use std::alloc::Global;

/// What is the same for all statements.
#[derive(Clone, Copy)]
pub(crate) struct Lowerer<'a> {
    pub(crate) alloc: Global,
    pub(crate) homes: &'a Homes,
}

/// The operations of such a statement by the table of flags, RAX, RDX and RCX. Refused where that
/// has no row of it either.
fn lower_other(
    lowerer: &Lowerer<'_>,
    span: Span,
    to: &Seq<Lval>,
    op: Option<BinOp>,
    value: &Expr,
    cond: &Option<Expr>,
) -> Result<Lowered, Failure<Span>>
    requires { NeverLowers (homes_of lowerer.now.homes.now) to.now op value.now cond.now }
    ensures made { IfOk result (λ made. Becomes (homes_of lowerer.now.homes.now)
        (done_by (assign to.now op value.now cond.now span)) made.nodes made.steps) }
    ensures code { IfAnswered result (HaveCode (homes_of lowerer.now.homes.now)
        (does (assign to.now op value.now cond.now span) ∷ [])) }
{
    let found = pinned_row_of(lowerer.alloc, lowerer.homes, to, op, value, cond)?;
    match found {
        None => Err(Failure::Refused(span)),
        Some(row) => {
            let made = pinned_at(lowerer.alloc, span, row)?;
            Ok(made)
        }
    }
}

/// The operations of `to = value` or of `to op= value`, or of one with a condition. Refused where
/// no row matches it.
fn lower_value(
    lowerer: &Lowerer<'_>,
    span: Span,
    to: &Seq<Lval>,
    op: Option<BinOp>,
    value: &Expr,
    cond: &Option<Expr>,
) -> Result<Lowered, Failure<Span>>
    ensures made { IfOk result (λ made. Becomes (homes_of lowerer.now.homes.now)
        (done_by (assign to.now op value.now cond.now span)) made.nodes made.steps) }
    ensures code { IfAnswered result (HaveCode (homes_of lowerer.now.homes.now)
        (does (assign to.now op value.now cond.now span) ∷ [])) }
{
    let found = row_of(lowerer.alloc, lowerer.homes, to, op, value, cond)?;
    match found {
        None => {
            let other = lower_other(lowerer, span, to, op, value, cond)?;
            Ok(other)
        }
        Some(row) => {
            let made = row_at(lowerer.alloc, span, row)?;
            Ok(made)
        }
    }
}

/// The operations of an intrinsic, where its statement begins. Refused, there, where no row matches
/// it.
fn lower_instruction(
    lowerer: &Lowerer<'_>,
    to: &Seq<Lval>,
    name: &Text,
    args: &Seq<Expr>,
    at: Span,
) -> Result<Lowered, Failure<Span>>
    ensures made { IfOk result (λ made. Becomes (homes_of lowerer.now.homes.now)
        (done_by (instruction to.now name.now args.now at)) made.nodes made.steps) }
    ensures code { IfAnswered result (HaveCode (homes_of lowerer.now.homes.now)
        (does (instruction to.now name.now args.now at) ∷ [])) }
{
    let begin = begins_at(to, at);
    match instruction_row(lowerer.homes, to, name, args) {
        None => Err(Failure::Refused(begin)),
        Some(row) => {
            let made = pinned_at(lowerer.alloc, begin, row)?;
            Ok(made)
        }
    }
}

/// The operations of an intrinsic, which has no condition. Refused where no row matches it.
fn lower_named(
    lowerer: &Lowerer<'_>,
    to: &Seq<Lval>,
    name: &Text,
    args: &Seq<Expr>,
    cond: &Option<Expr>,
    at: Span,
) -> Result<Lowered, Failure<Span>>
    ensures made { IfOk result (λ made. Becomes (homes_of lowerer.now.homes.now)
        (instruction_tree to.now None name.now args.now cond.now at) made.nodes made.steps) }
    ensures code { IfAnswered result (HaveCode (homes_of lowerer.now.homes.now)
        (parts_in (instruction_tree to.now None name.now args.now cond.now at done))) }
{
    match cond {
        Some(_) => Err(Failure::Refused(at)),
        None => {
            let made = lower_instruction(lowerer, to, name, args, at)?;
            Ok(made)
        }
    }
}

/// The operations of an assignment. Refused where no row matches it, and of a call.
fn lower_assign(
    lowerer: &Lowerer<'_>,
    span: Span,
    to: &Seq<Lval>,
    op: Option<BinOp>,
    rhs: &Rhs,
    cond: &Option<Expr>,
) -> Result<Lowered, Failure<Span>>
    ensures made { IfOk result (λ made. Becomes (homes_of lowerer.now.homes.now)
        (assign_tree no_callees to.now op rhs.now cond.now span) made.nodes made.steps) }
    ensures code { IfAnswered result (HaveCode (homes_of lowerer.now.homes.now)
        (parts_in (assign_tree no_callees to.now op rhs.now cond.now span done))) }
{
    match rhs {
        Rhs::Value(value) => {
            let made = lower_value(lowerer, span, to, op, value, cond)?;
            Ok(made)
        }
        Rhs::Call(_, _, at) => Err(Failure::Refused(*at)),
        Rhs::Intrinsic(name, args, at) => match op {
            Some(_) => Err(Failure::Refused(*at)),
            None => {
                let made = lower_named(lowerer, to, name, args, cond, *at)?;
                Ok(made)
            }
        },
    }
}

#[cycle(lowering)]
fn lower_all(lowerer: &Lowerer<'_>, stmts: &Seq<Stmt>) -> Result<Lowered, Failure<Span>>
    ensures made { IfOk result (λ made. Becomes (homes_of lowerer.now.homes.now)
        (block no_callees stmts.now) made.nodes made.steps) }
    ensures code { IfAnswered result (HaveCode (homes_of lowerer.now.homes.now)
        (parts_in (block no_callees stmts.now done))) }
{
    let mut nodes = Seq::new(lowerer.alloc);
    let mut steps = Seq::new(lowerer.alloc);
    for stmt in stmts.as_slice() {
        let one = lower_statement(lowerer, stmt)?;
        let Lowered {
            nodes: more,
            steps: rest,
        } = one;
        nodes.append(more)?;
        steps.append(rest)?;
    }
    Ok(Lowered { nodes, steps })
}

#[cycle(lowering)]
fn lower_statement(lowerer: &Lowerer<'_>, stmt: &Stmt) -> Result<Lowered, Failure<Span>>
    ensures made { IfOk result (λ made. Becomes (homes_of lowerer.now.homes.now)
        (statement_tree no_callees stmt.now) made.nodes made.steps) }
    ensures code { IfAnswered result (HaveCode (homes_of lowerer.now.homes.now)
        (parts_in (statement_tree no_callees stmt.now done))) }
{
    let made = lower_kind(lowerer, stmt.span, &stmt.kind)?;
    Ok(made)
}

#[cycle(lowering)]
fn lower_kind(lowerer: &Lowerer<'_>, span: Span, kind: &StmtKind) -> Result<Lowered, Failure<Span>>
    ensures made { IfOk result (λ made. Becomes (homes_of lowerer.now.homes.now)
        (kind_piece kind.now span) made.nodes made.steps) }
    ensures code { IfAnswered result (HaveCode (homes_of lowerer.now.homes.now)
        (parts_in (kind_piece kind.now span done))) }
{
    match kind {
        StmtKind::Assign { to, op, rhs, cond } => {
            let made = lower_assign(lowerer, span, to, *op, rhs, cond)?;
            Ok(made)
        }
        StmtKind::If(cond, holds, other) => {
            let test = test_at(lowerer.alloc, lowerer.homes, span, cond)?;
            let then_part = lower_all(lowerer, holds)?;
            let else_part = lower_all(lowerer, other)?;
            let made = branch(lowerer.alloc, test, then_part, else_part)?;
            Ok(made)
        }
        StmtKind::While {
            prologue,
            cond,
            body,
        } => match body {
            None => {
                let test = loop_test_at(lowerer.alloc, lowerer.homes, span, cond)?;
                let before = lower_all(lowerer, prologue)?;
                let turn = nothing(lowerer.alloc);
                let made = turns(lowerer.alloc, true, before, test, turn)?;
                Ok(made)
            }
            Some(body) => {
                let test = loop_test_at(lowerer.alloc, lowerer.homes, span, cond)?;
                let before = lower_all(lowerer, prologue)?;
                let turn = lower_all(lowerer, body)?;
                let made = turns(lowerer.alloc, false, before, test, turn)?;
                Ok(made)
            }
        },
        StmtKind::For { .. } => Err(Failure::Refused(span)),
        StmtKind::Mark(_) => Ok(nothing(lowerer.alloc)),
    }
}

/// The operations of statements that the expansion has left, in their order, with the steps of the
/// change. Refused, at the place of the first, where a statement has no row, or a test is neither a
/// comparison nor a bool variable; and of a call and of a `for`. The stack grows with the nesting of
/// the text.
pub fn lower_block(
    alloc: Global,
    homes: &Homes,
    stmts: &Seq<Stmt>,
) -> Result<Lowered, Failure<Span>>
    ensures made { IfOk result (λ made. Becomes (homes_of homes.now) (block no_callees stmts.now)
        made.nodes made.steps) }
    ensures code { IfAnswered result (HaveCode (homes_of homes.now)
        (parts_in (block no_callees stmts.now done))) }
{
    let lowerer = Lowerer { alloc, homes };
    let made = lower_all(&lowerer, stmts)?;
    Ok(made)
}
