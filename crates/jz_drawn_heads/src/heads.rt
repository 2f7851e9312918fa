//! Labels of their own that scalars have at the head of a loop.

ghost use Rattle.std.specs.Prelude.{◌≡◌, ◌++◌, ◌∷◌, [], OnOk, IfOk};
ghost use Rattle.jz_tree.specs.Span.{Span as Place};
ghost use Rattle.jz_meaning.specs.Runs.{block, statement_tree};
ghost use Rattle.jz_secrets.specs.Graphs.{arrows_of};
ghost use Rattle.jz_drawn_labels.specs.Kept.{nodes_of, IsLow};
ghost use Rattle.jz_drawn_labels.specs.Drew.{no_callees, IsDrawn};
ghost use Rattle.jz_drawn_heads.specs.Pieces.{kind_piece, turn_piece, CoversMore, LeftsMore};
ghost use Rattle.jz_drawn_heads.specs.Pieces.{back_arrows, keys_of, SplitsFor, HasHeads};

use jz_drawn_labels::{Drawing, Table, fresh, link, put};
use jz_secrets::{Edge, Node};
use jz_tree::{Lval, Seq, Stmt, StmtKind, Var};
use std::alloc::{AllocError, Global};

/// The label of a scalar at the head of a loop.
#[derive(Clone, Copy)]
pub struct Head<'a> {
    pub var: &'a Var,
    pub node: usize,
}

/// A scalar that is set.
#[derive(Clone, Copy)]
pub struct Target<'a> {
    pub var: &'a Var,
}

/// The scalar of a left side, where it is one.
fn left_scalar<'a>(left: &'a Lval, vars: &mut Vec<Target<'a>>) -> Result<(), AllocError>
    ensures { OnOk result
        (LeftsMore (left.now ∷ []) (keys_of vars.old.items) (keys_of vars.new.items)) }
{
    match left {
        Lval::Skip(_) => Ok(()),
        Lval::Var(var) => {
            vars.push(Target { var })?;
            Ok(())
        }
        Lval::Cell(_, _) => Ok(()),
        Lval::Store(_) => Ok(()),
    }
}

/// The scalars among left sides.
fn left_scalars<'a>(to: &'a Seq<Lval>, vars: &mut Vec<Target<'a>>) -> Result<(), AllocError>
    ensures { OnOk result
        (LeftsMore to.now (keys_of vars.old.items) (keys_of vars.new.items)) }
{
    for left in to.as_slice() {
        left_scalar(left, vars)?;
    }
    Ok(())
}

/// The scalars that statements set.
#[cycle(setting)]
pub fn scalars_set<'a>(stmts: &'a Seq<Stmt>, vars: &mut Vec<Target<'a>>) -> Result<(), AllocError>
    ensures { OnOk result (CoversMore (block no_callees stmts.now) (keys_of vars.old.items)
        (keys_of vars.new.items)) }
{
    for stmt in stmts.as_slice() {
        statement_sets(stmt, vars)?;
    }
    Ok(())
}

#[cycle(setting)]
fn statement_sets<'a>(stmt: &'a Stmt, vars: &mut Vec<Target<'a>>) -> Result<(), AllocError>
    ensures { OnOk result (CoversMore (statement_tree no_callees stmt.now)
        (keys_of vars.old.items) (keys_of vars.new.items)) }
{
    kind_sets(&stmt.kind, vars)?;
    Ok(())
}

#[cycle(setting)]
fn kind_sets<'a>(kind: &'a StmtKind, vars: &mut Vec<Target<'a>>) -> Result<(), AllocError>
    ensures { OnOk result ((at : Place) → CoversMore (kind_piece kind.now at)
        (keys_of vars.old.items) (keys_of vars.new.items)) }
{
    match kind {
        StmtKind::Assign {
            to,
            op: _,
            rhs: _,
            cond: _,
        } => {
            left_scalars(to, vars)?;
            Ok(())
        }
        StmtKind::If(_, holds, other) => {
            scalars_set(holds, vars)?;
            scalars_set(other, vars)?;
            Ok(())
        }
        StmtKind::While {
            prologue,
            cond: _,
            body,
        } => {
            scalars_set(prologue, vars)?;
            turn_sets(body, vars)?;
            Ok(())
        }
        StmtKind::For {
            counter: _,
            from: _,
            down: _,
            to: _,
            body: _,
        } => Ok(()),
        StmtKind::Mark(_) => Ok(()),
    }
}

#[cycle(setting)]
pub fn turn_sets<'a>(
    body: &'a Option<Seq<Stmt>>,
    vars: &mut Vec<Target<'a>>,
) -> Result<(), AllocError>
    ensures { OnOk result (CoversMore (turn_piece body.now) (keys_of vars.old.items)
        (keys_of vars.new.items)) }
{
    match body {
        None => Ok(()),
        Some(body) => {
            scalars_set(body, vars)?;
            Ok(())
        }
    }
}

/// A label of its own for a scalar that has none from `start` on: it comes of the one before.
fn split_one<'a>(
    drawing: &mut Drawing<'a>,
    heads: &mut Vec<Head<'a>>,
    var: &'a Var,
    start: usize,
) -> Result<(), AllocError>
    requires { IsLow drawing.old }
    ensures { OnOk result
        (SplitsFor start var.now drawing.old heads.old.items drawing.new heads.new.items) }
{
    let before = drawing.table.node(var);
    if before >= start {
        return Ok(());
    }
    let node = fresh(&mut drawing.sheet.edges)?;
    link(
        &mut drawing.sheet.edges,
        Node::Drawn(before),
        Node::Drawn(node),
    )?;
    put(&mut drawing.table, var, node)?;
    heads.push(Head { var, node })?;
    Ok(())
}

/// Labels of their own for scalars.
pub fn split<'a>(
    alloc: Global,
    drawing: &mut Drawing<'a>,
    vars: &[Target<'a>],
) -> Result<Vec<Head<'a>>, AllocError>
    requires { IsDrawn drawing.old }
    ensures { IfOk result
        (λ heads. HasHeads (keys_of vars.now) drawing.old drawing.new heads.items) }
{
    let start = drawing.sheet.next();
    let mut heads = Vec::new(alloc);
    for target in vars {
        split_one(drawing, &mut heads, target.var, start)?;
    }
    Ok(heads)
}

/// What scalars have at the end of a turn comes back to the heads.
pub fn come_back<'a>(
    edges: &mut Vec<Edge<'a>>,
    table: &Table<'a>,
    heads: &[Head<'a>],
) -> Result<(), AllocError>
    ensures { OnOk result (arrows_of edges.new.items
        ≡ arrows_of edges.old.items ++ back_arrows (nodes_of table.now) heads.now) }
{
    for head in heads {
        link(
            edges,
            Node::Drawn(table.node(head.var)),
            Node::Drawn(head.node),
        )?;
    }
    Ok(())
}
