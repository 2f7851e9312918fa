//! What operations draw.

ghost use Rattle.std.specs.Prelude.{◌≡◌, ◌≤◌, map, OnOk};
ghost use Rattle.jz_tree.specs.Span.{Span as Place};
ghost use Rattle.jz_meaning.specs.Runs.{assign_tree};
ghost use Rattle.jz_labels.specs.Operations.{Plain, left_of};
ghost use Rattle.jz_required.specs.Readings.{right_reading};
ghost use Rattle.jz_required.specs.Kept.{reading_of};
ghost use Rattle.jz_drawing.specs.Drawings.{drawn_operation};
ghost use Rattle.jz_drawn_labels.specs.Kept.{view_of, IsLow};
ghost use Rattle.jz_drawn_labels.specs.Drew.{no_callees, IsDrawn, Drew};
ghost use Rattle.jz_drawn_labels.specs.InnerLefts.{left_written, left_drawn, lefts_drawn};

use crate::drawing::Drawing;
use crate::sheet::{ask_all, fresh, link, link_all};
use crate::table::put;
use jz_required::{Found, assignment_reads, instruction_reads, left_demands};
use jz_secrets::Node;
use jz_tree::{BinOp, Expr, Lval, Rhs, Seq};
use std::alloc::{AllocError, Global};

/// The label of what is written comes to a left side.
fn write<'a>(drawing: &mut Drawing<'a>, left: &'a Lval, node: usize) -> Result<(), AllocError>
    requires { drawing.old.table.floor ≤ node }
    ensures floor { OnOk result (drawing.new.table.floor ≡ drawing.old.table.floor) }
    ensures below { OnOk result
        (drawing.new.table.layers.below.items ≡ drawing.old.table.layers.below.items) }
    ensures view { OnOk result (view_of drawing.new
        ≡ left_written node (left_of left.now) (view_of drawing.old)) }
{
    match left {
        Lval::Skip(_) => Ok(()),
        Lval::Var(var) => {
            put(&mut drawing.table, var, node)?;
            Ok(())
        }
        Lval::Cell(var, _) => {
            link(
                &mut drawing.sheet.edges,
                Node::Drawn(node),
                Node::Array(var),
            )?;
            Ok(())
        }
        Lval::Store(_) => Ok(()),
    }
}

/// A left side is evaluated, and then written.
fn draw_left<'a>(
    alloc: Global,
    drawing: &mut Drawing<'a>,
    left: &'a Lval,
    node: usize,
) -> Result<(), AllocError>
    requires { drawing.old.table.floor ≤ node }
    ensures floor { OnOk result (drawing.new.table.floor ≡ drawing.old.table.floor) }
    ensures below { OnOk result
        (drawing.new.table.layers.below.items ≡ drawing.old.table.layers.below.items) }
    ensures view { OnOk result (view_of drawing.new
        ≡ left_drawn node (left_of left.now) (view_of drawing.old)) }
{
    let required = left_demands(alloc, left)?;
    ask_all(&mut drawing.sheet.asked, &drawing.table, &required)?;
    write(drawing, left, node)?;
    Ok(())
}

fn draw_lefts<'a>(
    alloc: Global,
    drawing: &mut Drawing<'a>,
    to: &'a Seq<Lval>,
    node: usize,
) -> Result<(), AllocError>
    requires { drawing.old.table.floor ≤ node }
    ensures floor { OnOk result (drawing.new.table.floor ≡ drawing.old.table.floor) }
    ensures below { OnOk result
        (drawing.new.table.layers.below.items ≡ drawing.old.table.layers.below.items) }
    ensures view { OnOk result (view_of drawing.new
        ≡ lefts_drawn node (map left_of to.now) (view_of drawing.old)) }
{
    for left in to.as_slice() {
        draw_left(alloc, drawing, left, node)?;
    }
    Ok(())
}

/// An operation that reads this before it writes.
fn operate<'a>(
    alloc: Global,
    drawing: &mut Drawing<'a>,
    found: &Found<'a>,
    to: &'a Seq<Lval>,
) -> Result<(), AllocError>
    requires { IsLow drawing.old }
    ensures low { OnOk result (IsLow drawing.new) }
    ensures floor { OnOk result (drawing.new.table.floor ≡ drawing.old.table.floor) }
    ensures below { OnOk result
        (drawing.new.table.layers.below.items ≡ drawing.old.table.layers.below.items) }
    ensures view { OnOk result ((o : Plain)
        → reading_of found.now ≡ right_reading o → map left_of to.now ≡ o.to
        → view_of drawing.new ≡ drawn_operation o (view_of drawing.old)) }
{
    let node = fresh(&mut drawing.sheet.edges)?;
    link_all(&mut drawing.sheet.edges, &drawing.table, &found.parts, node)?;
    ask_all(&mut drawing.sheet.asked, &drawing.table, &found.required)?;
    draw_lefts(alloc, drawing, to, node)?;
    Ok(())
}

/// An assignment, or an instruction. Calls are none, nor are instructions with a condition or an
/// operation: no such thing stands in an expanded function.
pub fn draw_assign<'a>(
    alloc: Global,
    drawing: &mut Drawing<'a>,
    to: &'a Seq<Lval>,
    op: Option<BinOp>,
    rhs: &'a Rhs,
    cond: &'a Option<Expr>,
) -> Result<(), AllocError>
    requires { IsDrawn drawing.old }
    ensures { OnOk result ((at : Place) → Drew
        (assign_tree no_callees to.now op rhs.now cond.now at) drawing.old drawing.new) }
{
    match rhs {
        Rhs::Value(value) => {
            let found = assignment_reads(alloc, to, op, value, cond)?;
            operate(alloc, drawing, &found, to)?;
            Ok(())
        }
        Rhs::Call(_, _, _) => Ok(()),
        Rhs::Intrinsic(name, args, at) => match op {
            Some(_) => Ok(()),
            None => match cond {
                Some(_) => Ok(()),
                None => {
                    let found = instruction_reads(alloc, name, args, *at)?;
                    operate(alloc, drawing, &found, to)?;
                    Ok(())
                }
            },
        },
    }
}
