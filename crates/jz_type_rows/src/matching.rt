//! Statements and copies that no row of the tables matches.

ghost use Rattle.std.specs.Prelude.{◌≡◌, ◌||◌, not, map, IfOk};
ghost use Rattle.std.specs.List.{list_all};
ghost use Rattle.std.specs.Option.{option_copied};
ghost use Rattle.jz_tree.specs.declared.stmt.StmtKind.TheViews.{out-StmtKind};
ghost use Rattle.jz_type_names.specs.Order.{earliest};
ghost use Rattle.jz_type_names.specs.Parts.{layer_of};
ghost use Rattle.jz_type_rows.specs.InnerPairs.{pair_of};
ghost use Rattle.jz_type_rows.specs.Matching.{is_set_inline, may_be_inline, sets_inline, needs_row};
ghost use Rattle.jz_type_rows.specs.Matching.{has_row, has_copy, is_word_left, is_word_value};
ghost use Rattle.jz_type_rows.specs.Matching.{enters, leaves, has_copies_of_call, has_copies};
ghost use Rattle.jz_type_rows.specs.Matching.{unmatched_places};

use crate::callee::Callee;
use crate::pairs::{Pair, pairs};
use jz_select::{select, select_copy};
use jz_tree::{Expr, Lval, Rhs, Seq, Span, Stmt, StmtKind};
use jz_type_names::{is_inline, is_inline_int, is_skip, is_word, known, unless};
use std::alloc::{AllocError, Global};

fn is_set_inline(to: &Lval) -> bool
    ensures { result ≡ is_set_inline to.now }
{
    match to {
        Lval::Var(var) => is_inline_int(known(var)),
        _ => false,
    }
}

fn may_be_inline(cond: &Option<Expr>) -> bool
    ensures { result ≡ may_be_inline cond.now }
{
    match cond {
        None => true,
        Some(cond) => is_inline(cond),
    }
}

fn sets_inline(to: &Seq<Lval>, cond: &Option<Expr>) -> bool
    ensures { result ≡ sets_inline to.now cond.now }
{
    match to.as_slice() {
        [one] => is_set_inline(one) && may_be_inline(cond),
        _ => false,
    }
}

fn needs_row(kind: &StmtKind) -> bool
    ensures { result ≡ needs_row (out-StmtKind kind.now) }
{
    match kind {
        StmtKind::Assign { to, op, rhs, cond } => match rhs {
            Rhs::Call(_, _, _) => op.is_some() || cond.is_some(),
            Rhs::Value(_) => !sets_inline(to, cond),
            Rhs::Intrinsic(_, _, _) => true,
        },
        StmtKind::If(_, _, _) => true,
        StmtKind::While {
            prologue: _,
            cond: _,
            body: _,
        } => true,
        StmtKind::For {
            counter: _,
            from: _,
            down: _,
            to: _,
            body: _,
        } => false,
        StmtKind::Mark(_) => false,
    }
}

fn has_row(stmt: &Stmt) -> bool
    ensures { result ≡ has_row stmt.now.kind }
{
    select(stmt).is_some()
}

fn has_copy(to: &Lval, e: &Expr) -> bool
    ensures { result ≡ has_copy to.now e.now }
{
    select_copy(to, e).is_some()
}

fn is_word_left(to: &Lval) -> bool
    ensures { result ≡ is_word_left to.now }
{
    match to {
        Lval::Var(var) => is_word(known(var)),
        _ => false,
    }
}

fn is_word_value(e: &Expr) -> bool
    ensures { result ≡ is_word_value e.now }
{
    match e {
        Expr::Var(var) => is_word(known(var)),
        _ => false,
    }
}

fn enters(to: &Lval, arg: &Expr) -> bool
    ensures { result ≡ enters (to.now, arg.now) }
{
    !is_word_left(to) || has_copy(to, arg)
}

fn leaves(value: &Expr, to: &Lval) -> bool
    ensures { result ≡ leaves (value.now, to.now) }
{
    !is_word_value(value) || is_skip(to) || has_copy(to, value)
}

fn all_enter(pairs: &[Pair<'_, Lval, Expr>]) -> bool
    ensures { result ≡ list_all enters (map pair_of pairs.now) }
{
    for pair in pairs {
        if !enters(pair.left, pair.right) {
            return false;
        }
    }
    true
}

fn all_leave(pairs: &[Pair<'_, Expr, Lval>]) -> bool
    ensures { result ≡ list_all leaves (map pair_of pairs.now) }
{
    for pair in pairs {
        if !leaves(pair.left, pair.right) {
            return false;
        }
    }
    true
}

fn has_copies_of_call(
    alloc: Global,
    callee: Option<&Callee>,
    to: &Seq<Lval>,
    args: &Seq<Expr>,
) -> Result<bool, AllocError>
    ensures { IfOk result
        (λ fine. fine ≡ has_copies_of_call (option_copied callee.entry) to.now args.now) }
{
    let Some(callee) = callee else {
        return Ok(true);
    };
    let arguments = pairs(alloc, callee.entered.as_slice(), args.as_slice())?;
    let results = pairs(alloc, callee.left.as_slice(), to.as_slice())?;
    Ok(all_enter(&arguments) && all_leave(&results))
}

fn has_copies(alloc: Global, callee: Option<&Callee>, stmt: &Stmt) -> Result<bool, AllocError>
    ensures { IfOk result
        (λ fine. fine ≡ has_copies (option_copied callee.entry) (layer_of stmt.now)) }
{
    match &stmt.kind {
        StmtKind::Assign {
            to,
            op: _,
            rhs: Rhs::Call(_, args, _),
            cond: _,
        } => has_copies_of_call(alloc, callee, to, args),
        _ => Ok(true),
    }
}

fn has_own_row(stmt: &Stmt) -> bool
    ensures { result ≡ (not (needs_row (layer_of stmt.now)) || has_row stmt.now.kind) }
{
    !needs_row(&stmt.kind) || has_row(stmt)
}

/// The statement, where it needs a row of the tables and none matches, or where none matches a copy
/// of an argument or result of its call. `others` says that another fault is told of it; then none
/// is asked. Of a call the function is given; where there is none its copies are not asked.
pub fn unmatched(
    alloc: Global,
    callee: Option<&Callee>,
    others: bool,
    stmt: &Stmt,
) -> Result<Option<Span>, AllocError>
    ensures { IfOk result
        (λ at. at ≡ earliest (unmatched_places (option_copied callee.entry) others stmt.now)) }
{
    if others {
        return Ok(None);
    }
    let copies = has_copies(alloc, callee, stmt)?;
    Ok(unless(has_own_row(stmt) && copies, stmt.span))
}
