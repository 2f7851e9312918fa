//! The walk along a body. A loop's head is found by turns from what comes in, or from what its head
//! was for no fewer facts, so that an inner loop goes on from where it was in the turn before. The
//! stack grows with the nesting of the text.

ghost use Rattle.std.specs.Prelude.{◌≡◌, true, OnOk, IfOk};
ghost use Rattle.jz_tree.specs.Span.{Span as Where};
ghost use Rattle.jz_meaning.specs.Runs.{block, statement_tree};
ghost use Rattle.jz_layers.specs.Layered.{seen};
ghost use Rattle.jz_fact_sets.specs.Kept.{facts_of};
ghost use Rattle.jz_block_facts.specs.Heads.{no_callees, laid};
ghost use Rattle.jz_block_facts.specs.InnerWalks.{IsReady, IsTurnReady, Leads, Place, Turns};
ghost use Rattle.jz_block_facts.specs.InnerWalks.{loop_piece, place_of, turn_piece};
ghost use Rattle.jz_block_facts.specs.Pieces.{answered};

use crate::laying::{meet_both, taken};
use crate::looping::{Loop, end_loop, lower_head, open_head};
use crate::single::{after_single, open_arm};
use jz_fact_sets::{FactSet, Given, Table};
use jz_fact_writes::after_mark;
use jz_tree::{Expr, Seq, Stmt, StmtKind};
use std::alloc::AllocError;

/// What an arm lays over what comes in at it, and the number of the loop behind it.
#[derive(Drop)]
pub(crate) struct Arm<'a> {
    pub next: usize,
    pub table: Table<'a>,
}

/// What a prologue lays over a head, what the rest of the turn lays over that, and the number of
/// the loop behind.
#[derive(Drop)]
pub(crate) struct Turn<'a> {
    pub next: usize,
    pub prologue: Table<'a>,
    pub body: Table<'a>,
}

/// Statements in their order; gives the number of the next loop.
#[cycle(walk)]
pub(crate) fn walk_block<'a>(
    given: &Given,
    set: &mut FactSet<'a>,
    heads: &mut Seq<Table<'a>>,
    at: usize,
    stmts: &'a Seq<Stmt>,
) -> Result<usize, AllocError>
    requires { IsReady given.now (block no_callees stmts.now)
        (place_of given.now set.old at heads.old) }
    ensures below { OnOk result (set.new.below.items ≡ set.old.below.items) }
    ensures leads { IfOk result (λ next. Leads given.now (block no_callees stmts.now)
        (place_of given.now set.old at heads.old)
        (place_of given.now set.new next heads.new)) }
{
    let mut next = at;
    for stmt in stmts.as_slice() {
        next = walk_statement(given, set, heads, next, stmt)?;
    }
    Ok(next)
}

#[cycle(walk)]
pub(crate) fn walk_statement<'a>(
    given: &Given,
    set: &mut FactSet<'a>,
    heads: &mut Seq<Table<'a>>,
    at: usize,
    stmt: &'a Stmt,
) -> Result<usize, AllocError>
    requires { IsReady given.now (statement_tree no_callees stmt.now)
        (place_of given.now set.old at heads.old) }
    ensures below { OnOk result (set.new.below.items ≡ set.old.below.items) }
    ensures leads { IfOk result (λ next. Leads given.now (statement_tree no_callees stmt.now)
        (place_of given.now set.old at heads.old)
        (place_of given.now set.new next heads.new)) }
{
    match &stmt.kind {
        StmtKind::Assign { to, op, rhs, cond } => {
            after_single(given, set, to, *op, rhs, cond)?;
            Ok(at)
        }
        StmtKind::If(cond, yes, no) => {
            let first = walk_arm(given, set, heads, at, cond, true, yes)?;
            let Arm { next, table } = first;
            let second = walk_arm(given, set, heads, next, cond, false, no)?;
            let Arm {
                next: behind,
                table: other,
            } = second;
            meet_both(set, &table, &other)?;
            Ok(behind)
        }
        StmtKind::While {
            prologue,
            cond,
            body,
        } => {
            let span = stmt.span;
            let parts = Loop {
                span,
                prologue,
                cond,
                body,
            };
            let next = walk_while(given, set, heads, at, parts)?;
            Ok(next)
        }
        StmtKind::For { .. } => unreachable!(),
        StmtKind::Mark(vars) => {
            after_mark(set, vars)?;
            Ok(at)
        }
    }
}

/// An arm behind a test with its answer. The set is then as it was.
#[cycle(walk)]
fn walk_arm<'a>(
    given: &Given,
    set: &mut FactSet<'a>,
    heads: &mut Seq<Table<'a>>,
    at: usize,
    cond: &'a Expr,
    answer: bool,
    stmts: &'a Seq<Stmt>,
) -> Result<Arm<'a>, AllocError>
    requires { IsReady given.now (block no_callees stmts.now) (record {
      facts = answered given.now cond.now answer (facts_of given.now set.old);
      next = at;
      heads = heads.old;
    }) }
    ensures below { OnOk result (set.new.below.items ≡ set.old.below.items) }
    ensures seen { OnOk result (seen set.new ≡ seen set.old) }
    ensures leads { let s = facts_of given.now set.old in
        IfOk result (λ arm. Leads given.now (block no_callees stmts.now) (record {
          facts = answered given.now cond.now answer s;
          next = at;
          heads = heads.old;
        })
        (record {
          facts = laid given.now arm.table s;
          next = arm.next;
          heads = heads.new;
        })) }
{
    open_arm(given, set, cond, answer)?;
    let next = walk_block(given, set, heads, at, stmts)?;
    let table = taken(set);
    Ok(Arm { next, table })
}

/// The rest of a turn, behind the test that is true. The set is then as it was.
#[cycle(walk)]
fn walk_rest<'a>(
    given: &Given,
    set: &mut FactSet<'a>,
    heads: &mut Seq<Table<'a>>,
    at: usize,
    parts: Loop<'a>,
) -> Result<Arm<'a>, AllocError>
    requires { IsReady given.now (turn_piece parts) (record {
      facts = answered given.now parts.cond.now true (facts_of given.now set.old);
      next = at;
      heads = heads.old;
    }) }
    ensures below { OnOk result (set.new.below.items ≡ set.old.below.items) }
    ensures seen { OnOk result (seen set.new ≡ seen set.old) }
    ensures leads { let s = facts_of given.now set.old in
        IfOk result (λ arm. Leads given.now (turn_piece parts.entry) (record {
          facts = answered given.now parts.entry.cond.now true s;
          next = at;
          heads = heads.old;
        })
        (record {
          facts = laid given.now arm.table s;
          next = arm.next;
          heads = heads.new;
        })) }
{
    match parts.body {
        None => {
            open_arm(given, set, parts.cond, true)?;
            let table = taken(set);
            Ok(Arm { next: at, table })
        }
        Some(stmts) => {
            let arm = walk_arm(given, set, heads, at, parts.cond, true, stmts)?;
            Ok(arm)
        }
    }
}

/// A turn from a head. The set is then as it was.
#[cycle(walk)]
fn walk_turn<'a>(
    given: &Given,
    set: &mut FactSet<'a>,
    heads: &mut Seq<Table<'a>>,
    at: usize,
    parts: Loop<'a>,
) -> Result<Turn<'a>, AllocError>
    requires { IsTurnReady given.now parts (place_of given.now set.old at heads.old) }
    ensures below { OnOk result (set.new.below.items ≡ set.old.below.items) }
    ensures seen { OnOk result (seen set.new ≡ seen set.old) }
    ensures turns { let s = facts_of given.now set.old in
        IfOk result (λ turn. let q = laid given.now turn.prologue s in
        Turns given.now parts.entry (place_of given.now set.old at heads.old) q
        (record {
          facts = laid given.now turn.body q;
          next = turn.next;
          heads = heads.new;
        })) }
{
    set.open()?;
    let middle = walk_block(given, set, heads, at, parts.prologue)?;
    let arm = walk_rest(given, set, heads, middle, parts)?;
    let Arm { next, table } = arm;
    let prologue = taken(set);
    Ok(Turn {
        next,
        prologue,
        body: table,
    })
}

#[cycle(walk)]
fn walk_while<'a>(
    given: &Given,
    set: &mut FactSet<'a>,
    heads: &mut Seq<Table<'a>>,
    at: usize,
    parts: Loop<'a>,
) -> Result<usize, AllocError>
    requires { IsReady given.now (loop_piece parts)
        (place_of given.now set.old at heads.old) }
    ensures below { OnOk result (set.new.below.items ≡ set.old.below.items) }
    ensures leads { IfOk result (λ next. Leads given.now (loop_piece parts.entry)
        (place_of given.now set.old at heads.old)
        (place_of given.now set.new next heads.new)) }
{
    let inner = open_head(set, heads, at)?;
    loop {
        let turn = walk_turn(given, set, heads, inner, parts)?;
        let Turn {
            next,
            prologue,
            body,
        } = turn;
        let fell = lower_head(set, &prologue, &body)?;
        if !fell {
            end_loop(given, set, heads, at, parts.cond, &prologue)?;
            return Ok(next);
        }
    }
}
