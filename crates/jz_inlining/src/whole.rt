//! Statements with bodies in them, of what the bodies have become.

ghost use Rattle.std.specs.Prelude.{◌≡◌, ◌++◌, ◌∷◌, [], map, Some, None, IfOk, OnOk};
ghost use Rattle.jz_tree.specs.declared.stmt.StmtKind.TheVariants as kind;
ghost use Rattle.jz_change.specs.declared.change.Numbers.TheVariants.{Same};
ghost use Rattle.jz_change.specs.declared.change.Step.TheVariants as step;
ghost use Rattle.jz_inline.specs.Names.{expr_in, var_in};
ghost use Rattle.jz_inline.specs.CopiedNames.{names_of};
ghost use Rattle.jz_inline.specs.Statements.{statement, all_steps};
ghost use Rattle.jz_inlining.specs.InnerCopies.{Adds, mark_piece};

use crate::copier::{Body, Copied};
use crate::parts::{Counter, Test};
use crate::plain::{one_step, push_statement, vars_in_copy};
use jz_change::{Change, Numbers, Step};
use jz_inline::{NamesInCopy, expr_in_copy};
use jz_tree::{Note, Seq, Span, StmtKind, Var};
use std::alloc::{AllocError, Global};

/// A mark that stands in a body. No text has one.
pub(crate) fn copy_mark(
    alloc: Global,
    names: &NamesInCopy,
    notes: &Seq<Note>,
    span: Span,
    vars: &Seq<Var>,
    out: &mut Copied,
) -> Result<Seq<Step>, AllocError>
    ensures { let piece = mark_piece notes.now span vars.now in
        IfOk result (Adds piece (names_of names.now) out.old out.new) }
{
    let vars = vars_in_copy(alloc, names, vars)?;
    push_statement(alloc, notes, span, StmtKind::Mark(vars), &mut out.stmts)?;
    Ok(Seq::new(alloc))
}

pub(crate) fn finish_if(
    alloc: Global,
    names: &NamesInCopy,
    test: Test<'_>,
    holds: Body,
    other: Body,
    out: &mut Copied,
) -> Result<Seq<Step>, AllocError>
    ensures stmts { let cond = expr_in (names_of names.now) test.entry.cond.now in
        let whole = kind.If cond holds.stmts other.stmts in
        let made = statement test.entry.notes.now test.entry.span whole in
        OnOk result (out.new.stmts ≡ out.old.stmts ++ made ∷ []) }
    ensures next { OnOk result (out.new.next ≡ other.next) }
    ensures steps { let made = step.If [] Same (all_steps holds.steps) (all_steps other.steps) in
        IfOk result (λ steps. steps ≡ made ∷ []) }
{
    let cond = expr_in_copy(alloc, names, test.cond)?;
    let Body {
        stmts: then_stmts,
        steps: then_steps,
        next: _,
    } = holds;
    let Body {
        stmts: else_stmts,
        steps: else_steps,
        next,
    } = other;
    let kind = StmtKind::If(cond, then_stmts, else_stmts);
    push_statement(alloc, test.notes, test.span, kind, &mut out.stmts)?;
    out.next = next;
    let step = Step::If {
        before: Seq::new(alloc),
        test: Numbers::Same,
        then_part: Change { steps: then_steps },
        else_part: Change { steps: else_steps },
    };
    let steps = one_step(alloc, step)?;
    Ok(steps)
}

/// A loop that ends with its test.
pub(crate) fn finish_until(
    alloc: Global,
    names: &NamesInCopy,
    test: Test<'_>,
    prologue: Body,
    out: &mut Copied,
) -> Result<Seq<Step>, AllocError>
    ensures stmts { let cond = expr_in (names_of names.now) test.entry.cond.now in
        let whole = kind.While prologue.stmts cond None in
        let made = statement test.entry.notes.now test.entry.span whole in
        OnOk result (out.new.stmts ≡ out.old.stmts ++ made ∷ []) }
    ensures next { OnOk result (out.new.next ≡ prologue.next) }
    ensures steps { let made = step.While (all_steps prologue.steps) [] Same (all_steps []) in
        IfOk result (λ steps. steps ≡ made ∷ []) }
{
    let cond = expr_in_copy(alloc, names, test.cond)?;
    let Body {
        stmts: prologue,
        steps: before,
        next,
    } = prologue;
    let kind = StmtKind::While {
        prologue,
        cond,
        body: None,
    };
    push_statement(alloc, test.notes, test.span, kind, &mut out.stmts)?;
    out.next = next;
    let step = Step::While {
        prologue: Change { steps: before },
        before: Seq::new(alloc),
        test: Numbers::Same,
        body: Change {
            steps: Seq::new(alloc),
        },
    };
    let steps = one_step(alloc, step)?;
    Ok(steps)
}

pub(crate) fn finish_turns(
    alloc: Global,
    names: &NamesInCopy,
    test: Test<'_>,
    prologue: Body,
    body: Body,
    out: &mut Copied,
) -> Result<Seq<Step>, AllocError>
    ensures stmts { let cond = expr_in (names_of names.now) test.entry.cond.now in
        let whole = kind.While prologue.stmts cond (Some body.stmts) in
        let made = statement test.entry.notes.now test.entry.span whole in
        OnOk result (out.new.stmts ≡ out.old.stmts ++ made ∷ []) }
    ensures next { OnOk result (out.new.next ≡ body.next) }
    ensures steps { let made =
        step.While (all_steps prologue.steps) [] Same (all_steps body.steps) in
        IfOk result (λ steps. steps ≡ made ∷ []) }
{
    let cond = expr_in_copy(alloc, names, test.cond)?;
    let Body {
        stmts: prologue,
        steps: before,
        next: _,
    } = prologue;
    let Body {
        stmts,
        steps: turn,
        next,
    } = body;
    let kind = StmtKind::While {
        prologue,
        cond,
        body: Some(stmts),
    };
    push_statement(alloc, test.notes, test.span, kind, &mut out.stmts)?;
    out.next = next;
    let step = Step::While {
        prologue: Change { steps: before },
        before: Seq::new(alloc),
        test: Numbers::Same,
        body: Change { steps: turn },
    };
    let steps = one_step(alloc, step)?;
    Ok(steps)
}

pub(crate) fn finish_for(
    alloc: Global,
    names: &NamesInCopy,
    counter: Counter<'_>,
    body: Body,
    out: &mut Copied,
) -> Result<Seq<Step>, AllocError>
    ensures stmts { let names = names_of names.now in
        let from = expr_in names counter.entry.from.now in
        let to = expr_in names counter.entry.to.now in
        let by = kind.For (var_in names counter.entry.counter.now) from counter.entry.down to in
        let made = statement counter.entry.notes.now counter.entry.span (by body.stmts) in
        OnOk result (out.new.stmts ≡ out.old.stmts ++ made ∷ []) }
    ensures next { OnOk result (out.new.next ≡ body.next) }
    ensures steps { IfOk result (λ steps. steps ≡ step.For (all_steps body.steps) ∷ []) }
{
    let variable = names.variable(alloc, counter.counter)?;
    let from = expr_in_copy(alloc, names, counter.from)?;
    let to = expr_in_copy(alloc, names, counter.to)?;
    let Body {
        stmts,
        steps: round,
        next,
    } = body;
    let kind = StmtKind::For {
        counter: variable,
        from,
        down: counter.down,
        to,
        body: stmts,
    };
    push_statement(alloc, counter.notes, counter.span, kind, &mut out.stmts)?;
    out.next = next;
    let steps = one_step(alloc, Step::For(Change { steps: round }))?;
    Ok(steps)
}
