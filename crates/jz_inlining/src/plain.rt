//! Single statements and single steps.

ghost use Rattle.std.specs.Prelude.{◌≡◌, ◌++◌, ◌∷◌, [], map, IfOk, OnOk};
ghost use Rattle.jz_inline.specs.Names.{var_in};
ghost use Rattle.jz_inline.specs.CopiedNames.{names_of};
ghost use Rattle.jz_inline.specs.Statements.{statement, kept, right_in};
ghost use Rattle.jz_inlining.specs.InnerCopies.{Adds, plain_of};

use crate::copier::{Copied, Copier};
use crate::parts::Assignment;
use jz_change::{Numbers, Step};
use jz_inline::{NamesInCopy, condition_in_copy, expr_in_copy, exprs_in_copy, lvals_in_copy};
use jz_tree::{Note, Rhs, Seq, Span, Stmt, StmtKind, Var, copy_notes};
use std::alloc::{AllocError, Global};

/// One statement more, with the annotations of another.
pub(crate) fn push_statement(
    alloc: Global,
    notes: &Seq<Note>,
    span: Span,
    kind: StmtKind,
    out: &mut Seq<Stmt>,
) -> Result<(), AllocError>
    ensures { OnOk result (out.new ≡ out.old ++ statement notes.now span kind ∷ []) }
{
    let notes = copy_notes(alloc, notes)?;
    out.push(Stmt { notes, span, kind })?;
    Ok(())
}

pub(crate) fn one_step(alloc: Global, step: Step) -> Result<Seq<Step>, AllocError>
    ensures { IfOk result (λ steps. steps ≡ step ∷ []) }
{
    let mut steps = Seq::new(alloc);
    steps.push(step)?;
    Ok(steps)
}

/// The step of an operation that stays as it is.
fn kept_step(alloc: Global) -> Result<Seq<Step>, AllocError>
    ensures { IfOk result (λ steps. steps ≡ kept) }
{
    let mut items = Seq::new(alloc);
    items.push(Numbers::Same)?;
    let steps = one_step(alloc, Step::Ops(items))?;
    Ok(steps)
}

/// Variables in the copy.
pub(crate) fn vars_in_copy(
    alloc: Global,
    names: &NamesInCopy,
    vars: &Seq<Var>,
) -> Result<Seq<Var>, AllocError>
    ensures { IfOk result (λ copy. copy ≡ map (var_in (names_of names.now)) vars.now) }
{
    vars.try_map(alloc, |var| names.variable(alloc, var))
}

fn right_in_copy(alloc: Global, names: &NamesInCopy, rhs: &Rhs) -> Result<Rhs, AllocError>
    ensures { IfOk result (λ copy. copy ≡ right_in (names_of names.now) rhs.now) }
{
    match rhs {
        Rhs::Value(e) => Ok(Rhs::Value(expr_in_copy(alloc, names, e)?)),
        Rhs::Call(name, args, span) => {
            let args = exprs_in_copy(alloc, names, args)?;
            Ok(Rhs::Call(name.clone()?, args, *span))
        }
        Rhs::Intrinsic(name, args, span) => {
            let args = exprs_in_copy(alloc, names, args)?;
            Ok(Rhs::Intrinsic(name.clone()?, args, *span))
        }
    }
}

/// An assignment that copies no body.
pub(crate) fn copy_plain(
    copier: &Copier<'_>,
    names: &NamesInCopy,
    assignment: Assignment<'_>,
    rhs: &Rhs,
    out: &mut Copied,
) -> Result<Seq<Step>, AllocError>
    ensures { let piece = plain_of assignment.entry rhs.now in
        IfOk result (Adds piece (names_of names.now) out.old out.new) }
{
    let alloc = copier.alloc;
    let to = lvals_in_copy(alloc, names, assignment.to)?;
    let rhs = right_in_copy(alloc, names, rhs)?;
    let cond = condition_in_copy(alloc, names, assignment.cond)?;
    let op = assignment.op;
    let kind = StmtKind::Assign { to, op, rhs, cond };
    push_statement(
        alloc,
        assignment.notes,
        assignment.span,
        kind,
        &mut out.stmts,
    )?;
    let steps = kept_step(alloc)?;
    Ok(steps)
}
