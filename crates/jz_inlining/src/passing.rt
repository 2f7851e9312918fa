//! Copies of arguments and results, and the mark at the head of a copied body.

ghost use Rattle.std.specs.Prelude.{◌≡◌, ◌+◌, ◌<◌, ◌++◌, ◌∷◌, [], map, IfOk, OnOk};
ghost use Rattle.jz_change.specs.declared.change.Step.TheVariants as step;
ghost use Rattle.jz_inline.specs.Names.{var_in};
ghost use Rattle.jz_inline.specs.Calls as calls;
ghost use Rattle.jz_inline.specs.CopiedNames.{names_of};
ghost use Rattle.jz_inline.specs.Statements.{set_statement, all_steps};
ghost use Rattle.jz_inline.specs.Statements.{argument_statements, result_statements};
ghost use Rattle.jz_inlining.specs.InnerCopies as inner_copies;
ghost use Rattle.jz_inlining.specs.InnerCopies.{one_argument, one_result, last_number};
ghost use Rattle.jz_inlining.specs.InnerCopies.{arguments_of, results_of, mark_of};
ghost use Rattle.jz_inlining.specs.InnerCopies.{argument_items_of, result_items_of};

use crate::copier::Copied;
use crate::numbers::{items_of_arguments, items_of_results};
use crate::parts::Call;
use crate::plain::{one_step, vars_in_copy};
use jz_change::{Change, Step};
use jz_inline::{NamesInCopy, expr_in_copy, is_array, lval_in_copy};
use jz_meaning::left_span;
use jz_tree::{Expr, Lval, Param, Rhs, Seq, Span, Stmt, StmtKind, Var};
use std::alloc::{AllocError, Global};

/// The place of the statement that is a call.
fn call_place(to: &Seq<Lval>, name: Span) -> Span
    ensures { result ≡ calls.call_place to.now name }
{
    match to.as_slice() {
        [] => name,
        [first, ..] => left_span(first),
    }
}

/// One statement more, which sets one left side.
fn push_set(
    alloc: Global,
    span: Span,
    to: Lval,
    value: Expr,
    out: &mut Seq<Stmt>,
) -> Result<(), AllocError>
    ensures { OnOk result (out.new ≡ out.old ++ set_statement span to value ∷ []) }
{
    let mut left = Seq::new(alloc);
    left.push(to)?;
    out.push(Stmt {
        notes: Seq::new(alloc),
        span,
        kind: StmtKind::Assign {
            to: left,
            op: None,
            rhs: Rhs::Value(value),
            cond: None,
        },
    })?;
    Ok(())
}

/// The copy of an argument, if there is one.
fn copy_argument(
    alloc: Global,
    outer: &NamesInCopy,
    inner: &NamesInCopy,
    span: Span,
    param: &Param,
    arg: &Expr,
    out: &mut Seq<Stmt>,
) -> Result<(), AllocError>
    ensures { let one = one_argument (names_of outer.now) (names_of inner.now) span in
        OnOk result (out.new ≡ out.old ++ one param.now arg.now) }
{
    if is_array(&param.var) {
        return Ok(());
    }
    let to = Lval::Var(inner.variable(alloc, &param.var)?);
    let value = expr_in_copy(alloc, outer, arg)?;
    push_set(alloc, span, to, value, out)?;
    Ok(())
}

fn copy_arguments(
    alloc: Global,
    outer: &NamesInCopy,
    inner: &NamesInCopy,
    span: Span,
    params: &Seq<Param>,
    args: &Seq<Expr>,
    out: &mut Seq<Stmt>,
) -> Result<(), AllocError>
    ensures { let all = argument_statements (names_of outer.now) (names_of inner.now) span in
        OnOk result (out.new ≡ out.old ++ all params.now args.now) }
{
    for (i, param) in params.as_slice().iter().enumerate() {
        match args.get(i) {
            None => return Ok(()),
            Some(arg) => copy_argument(alloc, outer, inner, span, param, arg, out)?,
        }
    }
    Ok(())
}

/// Whether a left side gets a copy of a result: an array is the caller's already, and what is
/// dropped is not read.
pub(crate) fn is_copied(to: &Lval, var: &Var) -> bool
    ensures { result ≡ inner_copies.is_copied to.now var.now }
{
    match to {
        Lval::Skip(_) => false,
        Lval::Var(_) => !is_array(var),
        Lval::Cell(_, _) => !is_array(var),
        Lval::Store(_) => !is_array(var),
    }
}

/// The copy of a result, if there is one.
fn copy_result(
    alloc: Global,
    outer: &NamesInCopy,
    inner: &NamesInCopy,
    span: Span,
    to: &Lval,
    var: &Var,
    out: &mut Seq<Stmt>,
) -> Result<(), AllocError>
    ensures { let one = one_result (names_of outer.now) (names_of inner.now) span in
        OnOk result (out.new ≡ out.old ++ one to.now var.now) }
{
    if !is_copied(to, var) {
        return Ok(());
    }
    let to = lval_in_copy(alloc, outer, to)?;
    let value = Expr::Var(inner.variable(alloc, var)?);
    push_set(alloc, span, to, value, out)?;
    Ok(())
}

fn copy_results(
    alloc: Global,
    outer: &NamesInCopy,
    inner: &NamesInCopy,
    span: Span,
    to: &Seq<Lval>,
    vars: &Seq<Var>,
    out: &mut Seq<Stmt>,
) -> Result<(), AllocError>
    ensures { let all = result_statements (names_of outer.now) (names_of inner.now) span in
        OnOk result (out.new ≡ out.old ++ all to.now vars.now) }
{
    for (i, left) in to.as_slice().iter().enumerate() {
        match vars.get(i) {
            None => return Ok(()),
            Some(var) => copy_result(alloc, outer, inner, span, left, var, out)?,
        }
    }
    Ok(())
}

/// The mark at the head of a copied body: what it unsets are the variables that are declared there.
fn push_mark(
    alloc: Global,
    inner: &NamesInCopy,
    call: Call<'_>,
    out: &mut Seq<Stmt>,
) -> Result<(), AllocError>
    ensures { OnOk result
        (out.new ≡ out.old ++ mark_of (names_of inner.now) call.entry ∷ []) }
{
    let vars = vars_in_copy(alloc, inner, &call.callee.vars)?;
    out.push(Stmt {
        notes: Seq::new(alloc),
        span: call_place(call.to, call.span),
        kind: StmtKind::Mark(vars),
    })?;
    Ok(())
}

/// What stands before the body of a call: the copies of arguments and the mark.
pub(crate) fn begin_call(
    alloc: Global,
    outer: &NamesInCopy,
    inner: &NamesInCopy,
    call: Call<'_>,
    out: &mut Copied,
) -> Result<(), AllocError>
    requires few { out.old.next < last_number }
    ensures stmts { let before =
        arguments_of (names_of outer.now) (names_of inner.now) call.entry in
        let mark = mark_of (names_of inner.now) call.entry in
        OnOk result (out.new.stmts ≡ out.old.stmts ++ (before ++ mark ∷ [])) }
    ensures next { OnOk result (out.new.next ≡ out.old.next + 1) }
{
    let span = call_place(call.to, call.span);
    let params = &call.callee.params;
    copy_arguments(alloc, outer, inner, span, params, call.args, &mut out.stmts)?;
    push_mark(alloc, inner, call, &mut out.stmts)?;
    out.next += 1;
    Ok(())
}

/// What stands behind the body of a call, and the step of the call.
pub(crate) fn end_call(
    alloc: Global,
    outer: &NamesInCopy,
    inner: &NamesInCopy,
    call: Call<'_>,
    body: Seq<Step>,
    out: &mut Seq<Stmt>,
) -> Result<Seq<Step>, AllocError>
    ensures stmts { let behind = results_of (names_of outer.now) (names_of inner.now) call.entry in
        OnOk result (out.new ≡ out.old ++ behind) }
    ensures steps { let arguments = argument_items_of call.entry in
        let results = result_items_of call.entry in
        IfOk result (λ steps. steps ≡ step.Opened arguments (all_steps body) results ∷ []) }
{
    let span = call_place(call.to, call.span);
    copy_results(alloc, outer, inner, span, call.to, &call.callee.result, out)?;
    let arguments = items_of_arguments(alloc, &call.callee.params, call.args)?;
    let results = items_of_results(alloc, call.to, &call.callee.result)?;
    let body = Change { steps: body };
    let opened = Step::Opened {
        arguments,
        body,
        results,
    };
    let steps = one_step(alloc, opened)?;
    Ok(steps)
}
