//! The lines of a body.

ghost use Rattle.std.specs.Prelude.{◌≡◌, ◌≤◌, ◌<◌, ◌+◌, ◌^◌, ◌∷◌, [], ◌++◌, IfOk, OnOk};
ghost use Rattle.jz_runs.specs.Trees.{done};
ghost use Rattle.jz_place.specs.Codes.{test_in, then_code, code_in};
ghost use Rattle.jz_linear.specs.InnerLines.{Adds, head_lines};
ghost use Rattle.jz_linear.specs.Lines as of;
ghost use Rattle.jz_linear.specs.Lines.{labels_in, is_empty, test_lines, else_lines, choice_lines};
ghost use Rattle.jz_linear.specs.Lines.{jump_lines, turn_lines, loop_lines, lines_of, linear_of};
ghost use Rattle.jz_linear.specs.declared.line.Line.TheVariants as line;

use crate::line::{Line, Linear};
use jz_data::Seq;
use jz_place::{PlacedNode, PlacedTest};
use std::alloc::{AllocError, Global};
use x64_insn::{Cond, Insn};

/// The condition that holds where this one does not.
fn negated(cond: Cond) -> Cond
    ensures { result ≡ of.negated cond }
{
    match cond {
        Cond::O => Cond::No,
        Cond::No => Cond::O,
        Cond::B => Cond::Ae,
        Cond::Ae => Cond::B,
        Cond::E => Cond::Ne,
        Cond::Ne => Cond::E,
        Cond::Be => Cond::A,
        Cond::A => Cond::Be,
        Cond::S => Cond::Ns,
        Cond::Ns => Cond::S,
        Cond::P => Cond::Np,
        Cond::Np => Cond::P,
        Cond::L => Cond::Ge,
        Cond::Ge => Cond::L,
        Cond::Le => Cond::G,
        Cond::G => Cond::Le,
    }
}

/// The instruction of a test.
fn put_compare(lines: &mut Vec<Line>, compare: Option<Insn>) -> Result<(), AllocError>
    ensures { OnOk result (lines.new.items ≡ lines.old.items ++ test_lines compare) }
{
    match compare {
        None => Ok(()),
        Some(insn) => {
            lines.push(Line::Insn(insn))?;
            Ok(())
        }
    }
}

/// A test, and a jump to a label where it does not hold.
fn put_head(lines: &mut Vec<Line>, test: PlacedTest, label: u32) -> Result<(), AllocError>
    ensures { OnOk result (lines.new.items ≡ lines.old.items
        ++ head_lines (test_in test) label) }
{
    match test {
        PlacedTest::Always => Ok(()),
        PlacedTest::If(compare, cond) => {
            put_compare(lines, compare)?;
            lines.push(Line::Jcc(negated(cond), label))?;
            Ok(())
        }
    }
}

/// The lines of a body behind those that are there. Its labels are from `first` on, and the answer
/// is the one behind them.
#[cycle(put)]
fn put_block(lines: &mut Vec<Line>, first: u32, nodes: &Seq<PlacedNode>) -> Result<u32, AllocError>
    requires { first + labels_in (code_in nodes.now) < 2 ^ 32 }
    ensures { IfOk result (Adds lines.old.items lines.new.items
        (lines_of (code_in nodes.now) first) (first + labels_in (code_in nodes.now))) }
{
    let mut next = first;
    for node in nodes.as_slice() {
        next = put_node(lines, next, node)?;
    }
    Ok(next)
}

#[cycle(put)]
fn put_node(lines: &mut Vec<Line>, first: u32, node: &PlacedNode) -> Result<u32, AllocError>
    requires { first + labels_in (then_code node.now done) < 2 ^ 32 }
    ensures { IfOk result (Adds lines.old.items lines.new.items
        (lines_of (then_code node.now done) first)
        (first + labels_in (then_code node.now done))) }
{
    match node {
        PlacedNode::Do(insn) => {
            lines.push(Line::Insn(*insn))?;
            Ok(first)
        }
        PlacedNode::If(test, yes, no) => {
            let next = put_choice(lines, first, *test, yes, no)?;
            Ok(next)
        }
        PlacedNode::While(bare, prologue, test, inner) => {
            let next = put_loop(lines, first, *bare, prologue, *test, inner)?;
            Ok(next)
        }
    }
}

#[cycle(put)]
fn put_choice(
    lines: &mut Vec<Line>,
    first: u32,
    test: PlacedTest,
    yes: &Seq<PlacedNode>,
    no: &Seq<PlacedNode>,
) -> Result<u32, AllocError>
    requires { first + 2 + labels_in (code_in yes.now) + labels_in (code_in no.now) < 2 ^ 32 }
    ensures { IfOk result (Adds lines.old.items lines.new.items
        (choice_lines (test_in test) first (is_empty (code_in no.now))
        (lines_of (code_in yes.now) (first + 2))
        (lines_of (code_in no.now) (first + 2 + labels_in (code_in yes.now))))
        (first + 2 + labels_in (code_in yes.now) + labels_in (code_in no.now))) }
{
    put_head(lines, test, first)?;
    let middle = put_block(lines, first + 2, yes)?;
    let next = put_else(lines, first, middle, no)?;
    Ok(next)
}

/// The other part of an `if` whose labels are `label` and the one after it.
#[cycle(put)]
fn put_else(
    lines: &mut Vec<Line>,
    label: u32,
    first: u32,
    no: &Seq<PlacedNode>,
) -> Result<u32, AllocError>
    requires { (label + 2 ≤ first) × (first + labels_in (code_in no.now) < 2 ^ 32) }
    ensures { IfOk result (Adds lines.old.items lines.new.items
        (else_lines label (is_empty (code_in no.now)) (lines_of (code_in no.now) first))
        (first + labels_in (code_in no.now))) }
{
    if no.is_empty() {
        lines.push(Line::Label(label))?;
        return Ok(first);
    }
    lines.push(Line::Jmp(label + 1))?;
    lines.push(Line::Label(label))?;
    let next = put_block(lines, first, no)?;
    lines.push(Line::Label(label + 1))?;
    Ok(next)
}

#[cycle(put)]
fn put_loop(
    lines: &mut Vec<Line>,
    first: u32,
    bare: bool,
    prologue: &Seq<PlacedNode>,
    test: PlacedTest,
    inner: &Seq<PlacedNode>,
) -> Result<u32, AllocError>
    requires { first + 2 + labels_in (code_in prologue.now)
        + labels_in (code_in inner.now) < 2 ^ 32 }
    ensures { IfOk result (Adds lines.old.items lines.new.items
        (loop_lines bare (test_in test) first (lines_of (code_in prologue.now) (first + 2))
        (lines_of (code_in inner.now) (first + 2 + labels_in (code_in prologue.now))))
        (first + 2 + labels_in (code_in prologue.now) + labels_in (code_in inner.now))) }
{
    lines.push(Line::Label(first))?;
    let middle = put_block(lines, first + 2, prologue)?;
    let next = put_turn(lines, first, middle, bare, test, inner)?;
    Ok(next)
}

/// What follows the prologue of a `while` whose labels are `label` and the one after it.
#[cycle(put)]
fn put_turn(
    lines: &mut Vec<Line>,
    label: u32,
    first: u32,
    bare: bool,
    test: PlacedTest,
    inner: &Seq<PlacedNode>,
) -> Result<u32, AllocError>
    requires { (label + 2 ≤ first) × (first + labels_in (code_in inner.now) < 2 ^ 32) }
    ensures { IfOk result (Adds lines.old.items lines.new.items
        (turn_lines bare (test_in test) label (lines_of (code_in inner.now) first))
        (first + labels_in (code_in inner.now))) }
{
    match test {
        PlacedTest::Always => {
            let next = put_block(lines, first, inner)?;
            lines.push(Line::Jmp(label))?;
            Ok(next)
        }
        PlacedTest::If(compare, cond) => {
            put_compare(lines, compare)?;
            let next = put_jumps(lines, label, first, bare, cond, inner)?;
            Ok(next)
        }
    }
}

/// What follows the instruction of its test.
#[cycle(put)]
fn put_jumps(
    lines: &mut Vec<Line>,
    label: u32,
    first: u32,
    bare: bool,
    cond: Cond,
    inner: &Seq<PlacedNode>,
) -> Result<u32, AllocError>
    requires { (label + 2 ≤ first) × (first + labels_in (code_in inner.now) < 2 ^ 32) }
    ensures { IfOk result (Adds lines.old.items lines.new.items
        (jump_lines bare cond label (lines_of (code_in inner.now) first))
        (first + labels_in (code_in inner.now))) }
{
    if bare {
        lines.push(Line::Jcc(cond, label))?;
        let next = put_block(lines, first, inner)?;
        return Ok(next);
    }
    lines.push(Line::Jcc(negated(cond), label + 1))?;
    let next = put_block(lines, first, inner)?;
    lines.push(Line::Jmp(label))?;
    lines.push(Line::Label(label + 1))?;
    Ok(next)
}

/// The most lines that a body takes. Only the room for them goes by it.
#[cycle(room)]
fn room_of_block(nodes: &Seq<PlacedNode>) -> usize {
    let mut room: usize = 0;
    for node in nodes.as_slice() {
        room = room.saturating_add(room_of_node(node));
    }
    room
}

#[cycle(room)]
fn room_of_node(node: &PlacedNode) -> usize {
    match node {
        PlacedNode::Do(_) => 1,
        PlacedNode::If(_, yes, no) => {
            let parts = room_of_block(yes).saturating_add(room_of_block(no));
            parts.saturating_add(5)
        }
        PlacedNode::While(_, prologue, _, inner) => {
            let parts = room_of_block(prologue).saturating_add(room_of_block(inner));
            parts.saturating_add(5)
        }
    }
}

/// The lines of a body, with the return behind it. The stack grows with its nesting alone.
pub fn linearize(alloc: Global, nodes: &Seq<PlacedNode>) -> Result<Linear, AllocError>
    requires few { labels_in (code_in nodes.now) < 2 ^ 32 }
    ensures lines { IfOk result (λ made. made.lines ≡ linear_of (code_in nodes.now)) }
{
    let room = room_of_block(nodes).saturating_add(1);
    let mut lines = Vec::with_capacity(alloc, room)?;
    put_block(&mut lines, 0, nodes)?;
    lines.push(Line::Insn(Insn::Ret))?;
    Ok(Linear {
        lines: Seq::from_vec(lines),
    })
}
