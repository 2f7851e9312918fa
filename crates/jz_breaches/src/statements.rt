//! What statements draw.

ghost use Rattle.std.specs.Prelude.{◌≡◌, Bool, OnOk, IfOk, if◌then◌else◌};
ghost use Rattle.jz_tree.specs.Span.{Span as Place};
ghost use Rattle.jz_runs.specs.Trees as tree;
ghost use Rattle.jz_meaning.specs.Runs.{block, statement_tree};
ghost use Rattle.jz_terms.specs.Terms.{term_of};
ghost use Rattle.jz_required.specs.Readings.{test_demands as demanded};
ghost use Rattle.jz_drawing.specs.Drawings.{asks_in, with_asked};
ghost use Rattle.jz_drawn_labels.specs.Kept.{view_of};
ghost use Rattle.jz_drawn_labels.specs.Drew.{no_callees, IsDrawn, Drew};
ghost use Rattle.jz_drawn_heads.specs.Pieces.{kind_piece, turn_piece, condition_at};
ghost use Rattle.jz_drawn_heads.specs.Pieces.{Covers, keys_of};
ghost use Rattle.jz_breaches.specs.InnerLoops.{is_truth, ArmDrawn, TurnDrawn};

use jz_drawn_arms::{Arm, end_arm, meet};
use jz_drawn_heads::{Head, Target, come_back, scalars_set, split, turn_sets};
use jz_drawn_labels::{Drawing, ask_all, draw_assign};
use jz_required::test_demands;
use jz_tree::{Expr, Seq, Stmt, StmtKind};
use std::alloc::{AllocError, Global};

/// Whether it is `true`.
fn is_true(e: &Expr) -> bool
    ensures { result ≡ is_truth (term_of e.now) }
{
    match e {
        Expr::Num(_, _) => false,
        Expr::Bool(truth, _) => *truth,
        Expr::Var(_) => false,
        Expr::Cell(_, _) => false,
        Expr::Load(_) => false,
        Expr::Neg(_, _) => false,
        Expr::Not(_, _) => false,
        Expr::Cast { .. } => false,
        Expr::Bin(_, _, _, _) => false,
    }
}

/// The floor behind a loop: behind `while (true)` no path goes on.
fn floor_behind(cond: &Expr, floor: usize, next: usize) -> usize
    ensures { result ≡ (if is_truth (term_of cond.now) then next else floor) }
{
    if is_true(cond) { next } else { floor }
}

/// What has to be public of a condition.
fn draw_test<'a>(alloc: Global, drawing: &mut Drawing<'a>, cond: &'a Expr) -> Result<(), AllocError>
    ensures table { OnOk result (drawing.new.table ≡ drawing.old.table) }
    ensures view { OnOk result (view_of drawing.new ≡ with_asked
        (asks_in (view_of drawing.old).nodes (demanded (term_of cond.now)))
        (view_of drawing.old)) }
{
    let required = test_demands(alloc, cond)?;
    ask_all(&mut drawing.sheet.asked, &drawing.table, &required)?;
    Ok(())
}

/// The scalars that a loop sets.
fn set_in_loop<'a>(
    alloc: Global,
    prologue: &'a Seq<Stmt>,
    body: &'a Option<Seq<Stmt>>,
) -> Result<Vec<Target<'a>>, AllocError>
    ensures prologue { IfOk result
        (λ vars. Covers (block no_callees prologue.now) (keys_of vars.items)) }
    ensures body { IfOk result (λ vars. Covers (turn_piece body.now) (keys_of vars.items)) }
{
    let mut vars = Vec::new(alloc);
    scalars_set(prologue, &mut vars)?;
    turn_sets(body, &mut vars)?;
    Ok(vars)
}

#[cycle(drawing)]
pub(crate) fn draw_block<'a>(
    alloc: Global,
    drawing: &mut Drawing<'a>,
    stmts: &'a Seq<Stmt>,
) -> Result<(), AllocError>
    requires { IsDrawn drawing.old }
    ensures { OnOk result (Drew (block no_callees stmts.now) drawing.old drawing.new) }
{
    for stmt in stmts.as_slice() {
        draw_statement(alloc, drawing, stmt)?;
    }
    Ok(())
}

#[cycle(drawing)]
fn draw_statement<'a>(
    alloc: Global,
    drawing: &mut Drawing<'a>,
    stmt: &'a Stmt,
) -> Result<(), AllocError>
    requires { IsDrawn drawing.old }
    ensures { OnOk result (Drew (statement_tree no_callees stmt.now) drawing.old drawing.new) }
{
    draw_kind(alloc, drawing, &stmt.kind)?;
    Ok(())
}

/// An arm, which lies over what was there before it.
#[cycle(drawing)]
fn draw_arm<'a>(
    alloc: Global,
    drawing: &mut Drawing<'a>,
    stmts: &'a Seq<Stmt>,
) -> Result<Arm<'a>, AllocError>
    requires { IsDrawn drawing.old }
    ensures { IfOk result (λ arm. ArmDrawn stmts.now drawing.old arm drawing.new) }
{
    let floor = drawing.table.floor;
    drawing.table.layers.open()?;
    draw_block(alloc, drawing, stmts)?;
    let arm = end_arm(&mut drawing.table, floor);
    Ok(arm)
}

#[cycle(drawing)]
fn draw_choice<'a>(
    alloc: Global,
    drawing: &mut Drawing<'a>,
    cond: &'a Expr,
    holds: &'a Seq<Stmt>,
    other: &'a Seq<Stmt>,
) -> Result<(), AllocError>
    requires { IsDrawn drawing.old }
    ensures { OnOk result ((at : Place) → Drew (tree.choose (condition_at cond.now at)
        (block no_callees holds.now tree.done) (block no_callees other.now tree.done))
        drawing.old drawing.new) }
{
    draw_test(alloc, drawing, cond)?;
    let first = draw_arm(alloc, drawing, holds)?;
    let second = draw_arm(alloc, drawing, other)?;
    meet(drawing, &first, &second)?;
    Ok(())
}

#[cycle(drawing)]
fn draw_body<'a>(
    alloc: Global,
    drawing: &mut Drawing<'a>,
    body: &'a Option<Seq<Stmt>>,
) -> Result<(), AllocError>
    requires { IsDrawn drawing.old }
    ensures { OnOk result (Drew (turn_piece body.now) drawing.old drawing.new) }
{
    match body {
        None => Ok(()),
        Some(body) => {
            draw_block(alloc, drawing, body)?;
            Ok(())
        }
    }
}

/// A turn, which lies over what was there before it.
#[cycle(drawing)]
fn draw_turn<'a>(
    alloc: Global,
    drawing: &mut Drawing<'a>,
    body: &'a Option<Seq<Stmt>>,
    heads: &[Head<'a>],
) -> Result<(), AllocError>
    requires { IsDrawn drawing.old }
    ensures { OnOk result (TurnDrawn body.now heads.now drawing.old drawing.new) }
{
    let floor = drawing.table.floor;
    drawing.table.layers.open()?;
    draw_body(alloc, drawing, body)?;
    come_back(&mut drawing.sheet.edges, &drawing.table, heads)?;
    end_arm(&mut drawing.table, floor);
    Ok(())
}

#[cycle(drawing)]
fn draw_loop<'a>(
    alloc: Global,
    drawing: &mut Drawing<'a>,
    prologue: &'a Seq<Stmt>,
    cond: &'a Expr,
    body: &'a Option<Seq<Stmt>>,
) -> Result<(), AllocError>
    requires { IsDrawn drawing.old }
    ensures { OnOk result ((bare : Bool) (at : Place) → Drew (tree.loop bare
        (block no_callees prologue.now tree.done) (condition_at cond.now at)
        (turn_piece body.now tree.done)) drawing.old drawing.new) }
{
    let vars = set_in_loop(alloc, prologue, body)?;
    let heads = split(alloc, drawing, vars.as_slice())?;
    draw_block(alloc, drawing, prologue)?;
    draw_test(alloc, drawing, cond)?;
    draw_turn(alloc, drawing, body, heads.as_slice())?;
    let next = drawing.sheet.next();
    drawing.table.floor = floor_behind(cond, drawing.table.floor, next);
    Ok(())
}

#[cycle(drawing)]
fn draw_kind<'a>(
    alloc: Global,
    drawing: &mut Drawing<'a>,
    kind: &'a StmtKind,
) -> Result<(), AllocError>
    requires { IsDrawn drawing.old }
    ensures { OnOk result
        ((at : Place) → Drew (kind_piece kind.now at) drawing.old drawing.new) }
{
    match kind {
        StmtKind::Assign { to, op, rhs, cond } => {
            draw_assign(alloc, drawing, to, *op, rhs, cond)?;
            Ok(())
        }
        StmtKind::If(cond, holds, other) => {
            draw_choice(alloc, drawing, cond, holds, other)?;
            Ok(())
        }
        StmtKind::While {
            prologue,
            cond,
            body,
        } => {
            draw_loop(alloc, drawing, prologue, cond, body)?;
            Ok(())
        }
        StmtKind::For {
            counter: _,
            from: _,
            down: _,
            to: _,
            body: _,
        } => Ok(()),
        StmtKind::Mark(_) => Ok(()),
    }
}
