//! Statements of which nothing is known any more of what they set.

ghost use Rattle.std.specs.Prelude.{◌≡◌, OnOk};
ghost use Rattle.jz_meaning.specs.Runs.{block, statement_tree};
ghost use Rattle.jz_interp.specs.InnerParts.{body_piece};
ghost use Rattle.jz_unrolling_values.specs.InlineNames.{names_in};
ghost use Rattle.jz_unrolling_values.specs.Numbers.{numbers_in, Went};
ghost use Rattle.jz_unrolling.specs.Forgetting.{forgotten_left};
ghost use Rattle.jz_unrolling.specs.Steps.{no_callees, Forgets};

use jz_tree::{Lval, Rhs, Seq, Stmt, StmtKind};
use jz_unrolling_values::{InlineVars, Known, inline_target};
use std::alloc::AllocError;

/// Nothing is known from here on of what these statements set.
#[cycle(forget)]
pub(crate) fn forget_set(
    vars: &InlineVars,
    known: &mut Known,
    stmts: &Seq<Stmt>,
) -> Result<(), AllocError>
    ensures { OnOk result (Forgets (names_in vars.now) (block no_callees stmts.now)
        known.old known.new) }
{
    for stmt in stmts.as_slice() {
        forget_one(vars, known, stmt)?;
    }
    Ok(())
}

#[cycle(forget)]
fn forget_one(vars: &InlineVars, known: &mut Known, stmt: &Stmt) -> Result<(), AllocError>
    ensures { OnOk result (Forgets (names_in vars.now) (statement_tree no_callees stmt.now)
        known.old known.new) }
{
    match &stmt.kind {
        StmtKind::Assign { to, rhs, .. } => match rhs {
            Rhs::Value(_) => {
                forget_target(vars, known, to)?;
                Ok(())
            }
            Rhs::Call(_, _, _) => Ok(()),
            Rhs::Intrinsic(_, _, _) => Ok(()),
        },
        StmtKind::If(_, yes, no) => {
            forget_set(vars, known, yes)?;
            forget_set(vars, known, no)?;
            Ok(())
        }
        StmtKind::While { prologue, body, .. } => {
            forget_set(vars, known, prologue)?;
            forget_body(vars, known, body)?;
            Ok(())
        }
        StmtKind::For { body, .. } => {
            forget_set(vars, known, body)?;
            Ok(())
        }
        StmtKind::Mark(marked) => {
            known.forget(marked)?;
            Ok(())
        }
    }
}

/// Nothing is known of the inline variable that is set, where nothing else is.
fn forget_target(vars: &InlineVars, known: &mut Known, to: &Seq<Lval>) -> Result<(), AllocError>
    ensures numbers { OnOk result (numbers_in known.new
        ≡ forgotten_left (names_in vars.now) to.now (numbers_in known.old)) }
    ensures went { OnOk result (Went known.old known.new) }
{
    match inline_target(vars, to) {
        None => Ok(()),
        Some(var) => {
            known.set(&var.name, var.copy, None)?;
            Ok(())
        }
    }
}

/// The same of the body of a `while`, where it has one.
#[cycle(forget)]
pub(crate) fn forget_body(
    vars: &InlineVars,
    known: &mut Known,
    body: &Option<Seq<Stmt>>,
) -> Result<(), AllocError>
    ensures { OnOk result (Forgets (names_in vars.now) (body_piece no_callees body.now)
        known.old known.new) }
{
    match body {
        None => Ok(()),
        Some(body) => {
            forget_set(vars, known, body)?;
            Ok(())
        }
    }
}
