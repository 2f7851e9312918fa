//! The walk along a body, in which each condition is asked once, by the facts of its place; a
//! loop's are those of its head. The stack grows with the nesting of the text.

ghost use Rattle.std.specs.Prelude.{◌≡◌, ◌<◌, OnOk, IfOk, IfErr, Some, true, length, slice_get};
ghost use Rattle.jz_tree.specs.Failures.{IfRefused};
ghost use Rattle.jz_meaning.specs.Runs.{block, statement_tree};
ghost use Rattle.jz_layers.specs.Layered.{seen};
ghost use Rattle.jz_fact_sets.specs.Kept.{facts_of};
ghost use Rattle.jz_block_facts.specs.Heads.{no_callees, laid};
ghost use Rattle.jz_block_facts.specs.Pieces.{answered};
ghost use Rattle.jz_asked.specs.Asked.{alarm_of};
ghost use Rattle.jz_first_alarm.specs.InnerAsking.{IsReady, Goes, Stops, loop_piece, turn_piece};

use crate::arms::{Arm, Known, Loop};
use crate::asking::{ask_single, ask_test};
use jz_asked::Alarm;
use jz_block_facts::{lay, leave, meet_both, open_arm, taken};
use jz_fact_sets::{FactSet, Table};
use jz_fact_writes::after_mark;
use jz_tree::{Expr, Failure, Seq, Stmt, StmtKind};

/// Statements in their order; gives the number of the next loop.
#[cycle(walk)]
pub(crate) fn ask_block<'a>(
    known: Known<'_, 'a>,
    set: &mut FactSet<'a>,
    at: usize,
    stmts: &'a Seq<Stmt>,
) -> Result<usize, Failure<Alarm>>
    requires { IsReady known (block no_callees stmts.now) at
        (facts_of known.given.now set.old) }
    ensures below { OnOk result (set.new.below.items ≡ set.old.below.items) }
    ensures goes { let g = known.entry.given.now in
        IfOk result (λ next. Goes g (block no_callees stmts.now) at (facts_of g set.old) next
        (facts_of g set.new)) }
    ensures stops { let g = known.entry.given.now in
        IfErr result (λ failure. IfRefused failure (λ alarm. Stops g (block no_callees stmts.now)
        (facts_of g set.old) (alarm_of alarm))) }
{
    let mut next = at;
    for stmt in stmts.as_slice() {
        next = ask_statement(known, set, next, stmt)?;
    }
    Ok(next)
}

#[cycle(walk)]
fn ask_statement<'a>(
    known: Known<'_, 'a>,
    set: &mut FactSet<'a>,
    at: usize,
    stmt: &'a Stmt,
) -> Result<usize, Failure<Alarm>>
    requires { IsReady known (statement_tree no_callees stmt.now) at
        (facts_of known.given.now set.old) }
    ensures below { OnOk result (set.new.below.items ≡ set.old.below.items) }
    ensures goes { let g = known.entry.given.now in
        IfOk result (λ next. Goes g (statement_tree no_callees stmt.now) at
        (facts_of g set.old) next (facts_of g set.new)) }
    ensures stops { let g = known.entry.given.now in
        IfErr result (λ failure. IfRefused failure (λ alarm. Stops g
        (statement_tree no_callees stmt.now) (facts_of g set.old) (alarm_of alarm))) }
{
    match &stmt.kind {
        StmtKind::Assign { to, op, rhs, cond } => {
            ask_single(known.given, set, to, *op, rhs, cond)?;
            Ok(at)
        }
        StmtKind::If(cond, yes, no) => {
            ask_test(known.given, set, cond)?;
            let first = ask_arm(known, set, at, cond, true, yes)?;
            let Arm { next, table } = first;
            let second = ask_arm(known, set, next, cond, false, no)?;
            let Arm {
                next: behind,
                table: other,
            } = second;
            meet_both(set, &table, &other)?;
            Ok(behind)
        }
        StmtKind::While {
            prologue,
            cond,
            body,
        } => {
            let parts = Loop {
                span: stmt.span,
                prologue,
                cond,
                body,
            };
            let next = ask_while(known, set, at, parts)?;
            Ok(next)
        }
        StmtKind::For { .. } => unreachable!(),
        StmtKind::Mark(vars) => {
            after_mark(set, vars)?;
            Ok(at)
        }
    }
}

/// An arm behind a test with its answer. The set is then as it was.
#[cycle(walk)]
fn ask_arm<'a>(
    known: Known<'_, 'a>,
    set: &mut FactSet<'a>,
    at: usize,
    cond: &'a Expr,
    answer: bool,
    stmts: &'a Seq<Stmt>,
) -> Result<Arm<'a>, Failure<Alarm>>
    requires { IsReady known (block no_callees stmts.now) at
        (answered known.given.now cond.now answer (facts_of known.given.now set.old)) }
    ensures below { OnOk result (set.new.below.items ≡ set.old.below.items) }
    ensures seen { OnOk result (seen set.new ≡ seen set.old) }
    ensures goes { let g = known.entry.given.now in let s = facts_of g set.old in
        IfOk result (λ arm. Goes g (block no_callees stmts.now) at
        (answered g cond.now answer s) arm.next (laid g arm.table s)) }
    ensures stops { let g = known.entry.given.now in
        IfErr result (λ failure. IfRefused failure (λ alarm. Stops g (block no_callees stmts.now)
        (answered g cond.now answer (facts_of g set.old)) (alarm_of alarm))) }
{
    open_arm(known.given, set, cond, answer)?;
    let next = ask_block(known, set, at, stmts)?;
    let table = taken(set);
    Ok(Arm { next, table })
}

/// The rest of a turn, behind the test that is true; gives the number of the next loop. The set is
/// then as it was.
#[cycle(walk)]
fn ask_rest<'a>(
    known: Known<'_, 'a>,
    set: &mut FactSet<'a>,
    at: usize,
    parts: Loop<'a>,
) -> Result<Arm<'a>, Failure<Alarm>>
    requires { IsReady known (turn_piece parts) at
        (answered known.given.now parts.cond.now true (facts_of known.given.now set.old)) }
    ensures below { OnOk result (set.new.below.items ≡ set.old.below.items) }
    ensures seen { OnOk result (seen set.new ≡ seen set.old) }
    ensures goes { let g = known.entry.given.now in let s = facts_of g set.old in
        IfOk result (λ arm. Goes g (turn_piece parts.entry) at
        (answered g parts.entry.cond.now true s) arm.next (laid g arm.table s)) }
    ensures stops { let g = known.entry.given.now in
        IfErr result (λ failure. IfRefused failure (λ alarm. Stops g (turn_piece parts.entry)
        (answered g parts.entry.cond.now true (facts_of g set.old)) (alarm_of alarm))) }
{
    match parts.body {
        None => {
            open_arm(known.given, set, parts.cond, true)?;
            let table = taken(set);
            Ok(Arm { next: at, table })
        }
        Some(stmts) => {
            let arm = ask_arm(known, set, at, parts.cond, true, stmts)?;
            Ok(arm)
        }
    }
}

/// The table of the head of the loop of this number.
fn head_of<'s, 'a>(heads: &'s [Table<'a>], at: usize) -> &'s Table<'a>
    requires { at < length heads.now }
    ensures { slice_get heads.now at ≡ Some result.now }
{
    &heads[at]
}

/// A loop: its prologue, its test and its body, by the facts at its head.
#[cycle(walk)]
fn ask_while<'a>(
    known: Known<'_, 'a>,
    set: &mut FactSet<'a>,
    at: usize,
    parts: Loop<'a>,
) -> Result<usize, Failure<Alarm>>
    requires { IsReady known (loop_piece parts) at (facts_of known.given.now set.old) }
    ensures below { OnOk result (set.new.below.items ≡ set.old.below.items) }
    ensures goes { let g = known.entry.given.now in
        IfOk result (λ next. Goes g (loop_piece parts.entry) at (facts_of g set.old) next
        (facts_of g set.new)) }
    ensures stops { let g = known.entry.given.now in
        IfErr result (λ failure. IfRefused failure (λ alarm. Stops g (loop_piece parts.entry)
        (facts_of g set.old) (alarm_of alarm))) }
{
    let head = head_of(known.heads, at);
    lay(set, head)?;
    set.open()?;
    let middle = ask_block(known, set, at + 1, parts.prologue)?;
    ask_test(known.given, set, parts.cond)?;
    let arm = ask_rest(known, set, middle, parts)?;
    let next = arm.next;
    let prologue = taken(set);
    leave(known.given, set, parts.cond, &prologue)?;
    Ok(next)
}
