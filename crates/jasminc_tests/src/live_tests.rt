//! Code written by hand, and what is live after each of its operations.

ghost use Rattle.std.specs.Prelude.{◌<◌, IfOk, OnOk};
ghost use Rattle.std.specs.List.{All};
ghost use Rattle.jz_ir.specs.Places.{Below};
ghost use Rattle.jz_ir.specs.Tree.{done, then_tree, tree_of};
ghost use Rattle.jz_live.specs.Lives.{TreeBelow};

use jz_bits::Bits;
use jz_io::Span;
use jz_ir::{Node, Op};
use jz_leak::Seq;
use jz_live::live;
use std::alloc::{AllocError, Global};
use std::test::Fail;

/// An operation over the variables 0, 1 and 2.
fn op(alloc: Global, reads: &[u32], writes: &[u32]) -> Result<Op, AllocError>
    requires reads { All (λ variable. variable < 3) reads.now }
    requires writes { All (λ variable. variable < 3) writes.now }
    ensures { IfOk result (Below 3) }
{
    Ok(Op {
        span: Span { line: 1, col: 1 },
        reads: Seq::from_slice(alloc, reads)?,
        writes: Seq::from_slice(alloc, writes)?,
        fixed: Seq::new(alloc),
        needs: Seq::new(alloc),
    })
}

/// An operation as a part of code.
fn operation(op: Op) -> Node
    requires { Below 3 op }
    ensures { TreeBelow 3 (then_tree result done) }
{
    Node::Op(op)
}

/// A branch on what a test reads.
fn branch(test: Op, yes: Seq<Node>, no: Seq<Node>) -> Node
    requires test { Below 3 test }
    requires yes { TreeBelow 3 (tree_of yes) }
    requires no { TreeBelow 3 (tree_of no) }
    ensures { TreeBelow 3 (then_tree result done) }
{
    Node::If(test, yes, no)
}

/// A loop with a test.
fn repeated(prologue: Seq<Node>, test: Op, body: Seq<Node>) -> Node
    requires prologue { TreeBelow 3 (tree_of prologue) }
    requires test { Below 3 test }
    requires body { TreeBelow 3 (tree_of body) }
    ensures { TreeBelow 3 (then_tree result done) }
{
    Node::While(prologue, Some(test), body)
}

/// A loop without a test.
fn endless(alloc: Global, body: Seq<Node>) -> Node
    requires { TreeBelow 3 (tree_of body) }
    ensures { TreeBelow 3 (then_tree result done) }
{
    Node::While(Seq::new(alloc), None, body)
}

/// A part more.
fn append(nodes: &mut Seq<Node>, node: Node) -> Result<(), AllocError>
    requires nodes { TreeBelow 3 (tree_of nodes.old) }
    requires node { TreeBelow 3 (then_tree node done) }
    ensures { OnOk result (TreeBelow 3 (tree_of nodes.new)) }
{
    nodes.push(node)?;
    Ok(())
}

/// An operation more.
fn append_op(
    alloc: Global,
    nodes: &mut Seq<Node>,
    reads: &[u32],
    writes: &[u32],
) -> Result<(), AllocError>
    requires nodes { TreeBelow 3 (tree_of nodes.old) }
    requires reads { All (λ variable. variable < 3) reads.now }
    requires writes { All (λ variable. variable < 3) writes.now }
    ensures { OnOk result (TreeBelow 3 (tree_of nodes.new)) }
{
    let op = op(alloc, reads, writes)?;
    append(nodes, operation(op))
}

/// The variables of each row.
fn shown(alloc: Global, rows: &[Bits]) -> Result<String, AllocError> {
    let mut text = String::new(alloc);
    for row in rows {
        for (variable, name) in ["0", "1", "2"].iter().enumerate() {
            if row.contains(variable) {
                text.push_str(name)?;
            }
        }
        text.push_str(";")?;
    }
    Ok(text)
}

/// 0 = ..; 1 = ..; if 0 { 2 = 1; } else { 2 = ..; } .. = 2;
#[test]
fn one_part_of_a_branch_reads_it(rt: HostRuntime) -> Result<(), Fail> {
    let a = rt.alloc();
    let mut yes = Seq::new(a);
    append_op(a, &mut yes, &[1], &[2])?;
    let mut no = Seq::new(a);
    append_op(a, &mut no, &[], &[2])?;
    let mut nodes = Seq::new(a);
    append_op(a, &mut nodes, &[], &[0])?;
    append_op(a, &mut nodes, &[], &[1])?;
    append(&mut nodes, branch(op(a, &[0], &[])?, yes, no))?;
    append_op(a, &mut nodes, &[2], &[])?;
    let rows = live(a, &nodes, 3)?;
    assert_eq!(rt; shown(a, rows.as_slice())?.as_str(), "0;01;1;2;2;;");
    Ok(())
}

/// 0 = ..; 1 = ..; while { 2 = 0; } (2) { 1 = 1 + 0; 0 = 0 - 1; } .. = 1;
#[test]
fn the_next_turn_of_a_loop_reads_it(rt: HostRuntime) -> Result<(), Fail> {
    let a = rt.alloc();
    let mut prologue = Seq::new(a);
    append_op(a, &mut prologue, &[0], &[2])?;
    let mut body = Seq::new(a);
    append_op(a, &mut body, &[1, 0], &[1])?;
    append_op(a, &mut body, &[0], &[0])?;
    let mut nodes = Seq::new(a);
    append_op(a, &mut nodes, &[], &[0])?;
    append_op(a, &mut nodes, &[], &[1])?;
    append(&mut nodes, repeated(prologue, op(a, &[2], &[])?, body))?;
    append_op(a, &mut nodes, &[1], &[])?;
    let rows = live(a, &nodes, 3)?;
    assert_eq!(rt; shown(a, rows.as_slice())?.as_str(), "0;01;012;01;01;01;;");
    Ok(())
}

/// while { 1 = 0; 0 = 1; } .. = 2;
#[test]
fn what_stands_behind_an_endless_loop_is_not_read(rt: HostRuntime) -> Result<(), Fail> {
    let a = rt.alloc();
    let mut body = Seq::new(a);
    append_op(a, &mut body, &[0], &[1])?;
    append_op(a, &mut body, &[1], &[0])?;
    let mut nodes = Seq::new(a);
    append(&mut nodes, endless(a, body))?;
    append_op(a, &mut nodes, &[2], &[])?;
    let rows = live(a, &nodes, 3)?;
    assert_eq!(rt; shown(a, rows.as_slice())?.as_str(), "1;0;;");
    Ok(())
}
