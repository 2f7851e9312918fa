//! Where variables may be set.
#![tactic(auto, using(crate::proofs::Joins::earliest_laws))]

ghost use Rattle.std.specs.Prelude.{◌≡◌, IfOk, OnOk};
ghost use Rattle.std.specs.List.{list_any};
ghost use Rattle.std.specs.Str.{bytes_eq};
ghost use Rattle.jz_type_names.specs.Order.{earliest};
ghost use Rattle.jz_type_storage.specs.Settings.{around, may_set, wrongly_set_in};
ghost use Rattle.jz_type_storage.specs.InnerFirstSet.{first_left, first_lefts, first_set_all};
ghost use Rattle.jz_type_storage.specs.InnerFirstSet.{first_set_kind};

use jz_tree::{Fun, Lval, Seq, Span, Stmt, StmtKind, Text, Var};
use jz_type_names::{earlier_of, is_inline, is_inline_int, known, unless};
use std::alloc::{AllocError, Global};

/// Whether a loop round here has the name as its counter; there are as many as loops are nested.
fn is_counter(counters: &[Text], name: &Text) -> bool
    ensures { result ≡ list_any (λ n. bytes_eq n name.now) counters.now }
{
    counters.contains(name)
}

fn may_set(inside: bool, counters: &[Text], var: &Var) -> bool
    ensures { result ≡ may_set (around inside counters.now) var.now }
{
    !is_counter(counters, &var.name) && !(inside && is_inline_int(known(var)))
}

fn left(inside: bool, counters: &[Text], to: &Lval) -> Option<Span>
    ensures { result ≡ first_left to.now (around inside counters.now) }
{
    match to {
        Lval::Skip(_) => None,
        Lval::Var(var) => unless(may_set(inside, counters, var), var.span),
        Lval::Cell(_, _) => None,
        Lval::Store(_) => None,
    }
}

fn lefts(inside: bool, counters: &[Text], to: &[Lval]) -> Option<Span>
    ensures { result ≡ first_lefts to.now (around inside counters.now) }
{
    let mut best = None;
    for lval in to {
        best = earlier_of(best, left(inside, counters, lval));
    }
    best
}

/// The earliest place in statements: `inside` says that a `while` or an `if` that is not inline
/// stands round them, `counters` are those of the loops round them.
#[cycle(settings)]
fn set_in_all(
    inside: bool,
    counters: &mut Vec<Text>,
    stmts: &Seq<Stmt>,
) -> Result<Option<Span>, AllocError>
    ensures first { let round = around inside counters.old.items in
        IfOk result (λ at. at ≡ first_set_all stmts.now round) }
    ensures kept { OnOk result (counters.new.items ≡ counters.old.items) }
{
    let mut best = None;
    for stmt in stmts.as_slice() {
        best = earlier_of(best, set_in(inside, counters, &stmt.kind)?);
    }
    Ok(best)
}

#[cycle(settings)]
fn set_in(
    inside: bool,
    counters: &mut Vec<Text>,
    kind: &StmtKind,
) -> Result<Option<Span>, AllocError>
    ensures first { let round = around inside counters.old.items in
        IfOk result (λ at. at ≡ first_set_kind kind.now round) }
    ensures kept { OnOk result (counters.new.items ≡ counters.old.items) }
{
    match kind {
        StmtKind::Assign { to, .. } => Ok(lefts(inside, counters.as_slice(), to.as_slice())),
        StmtKind::If(cond, yes, no) => {
            let within = !is_inline(cond) || inside;
            let one = set_in_all(within, counters, yes)?;
            let two = set_in_all(within, counters, no)?;
            Ok(earlier_of(one, two))
        }
        StmtKind::While {
            prologue,
            cond: _,
            body: None,
        } => {
            let first = set_in_all(true, counters, prologue)?;
            Ok(first)
        }
        StmtKind::While {
            prologue,
            cond: _,
            body: Some(body),
        } => {
            let one = set_in_all(true, counters, prologue)?;
            let two = set_in_all(true, counters, body)?;
            Ok(earlier_of(one, two))
        }
        StmtKind::For { counter, body, .. } => {
            let free = !is_counter(counters.as_slice(), &counter.name);
            let own = unless(free, counter.span);
            let depth = counters.len();
            counters.push(counter.name.clone()?)?;
            let rest = set_in_all(inside, counters, body)?;
            counters.truncate(depth);
            Ok(earlier_of(own, rest))
        }
        StmtKind::Mark(_) => Ok(None),
    }
}

/// The earliest place in a function at which a counter is set inside its loop, or an inline
/// variable inside a `while` or an `if` whose condition is not inline.
#[tactic(auto, using(crate::proofs::SetFused::all_fused))]
pub fn wrongly_set(alloc: Global, fun: &Fun) -> Result<Option<Span>, AllocError>
    ensures { IfOk result (λ r. r ≡ earliest (wrongly_set_in fun.now.body)) }
{
    let mut counters = Vec::new(alloc);
    let first = set_in_all(false, &mut counters, &fun.body)?;
    Ok(first)
}
