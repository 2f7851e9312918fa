//! Liveness of some variables alone: the others are left out of the code first.

ghost use Rattle.std.specs.Prelude.{◌≡◌, [], length, IfOk};
ghost use Rattle.std.specs.List.{filter};
ghost use Rattle.jz_bits.specs.Has.{has};
ghost use Rattle.jz_ir.specs.Tree.{then_tree, tree_of, done, states};
ghost use Rattle.jz_live_lists.specs.Followed.{FollowedLive, only, only_test, only_tree};
ghost use Rattle.jz_live_lists.specs.Lists.{EachLists};

use crate::tree::live;
use jz_bits::Bits;
use jz_data::Seq;
use jz_ir::{Node, Op};
use std::alloc::{AllocError, Global};

/// Those of the variables that are followed.
fn kept(alloc: Global, variables: &Seq<u32>, followed: &Bits) -> Result<Seq<u32>, AllocError>
    ensures { IfOk result (λ kept. kept ≡ filter (has followed.now) variables.now) }
{
    let mut kept = Seq::new(alloc);
    for variable in variables.as_slice() {
        if followed.contains(*variable as usize) {
            kept.push(*variable)?;
        }
    }
    Ok(kept)
}

fn narrow_op(alloc: Global, op: &Op, followed: &Bits) -> Result<Op, AllocError>
    ensures { IfOk result (λ made. made ≡ only followed.now op.now) }
{
    let reads = kept(alloc, &op.reads, followed)?;
    let writes = kept(alloc, &op.writes, followed)?;
    Ok(Op {
        span: op.span,
        reads,
        writes,
        fixed: Seq::new(alloc),
        needs: Seq::new(alloc),
    })
}

fn narrow_test(alloc: Global, test: &Option<Op>, followed: &Bits) -> Result<Option<Op>, AllocError>
    ensures { IfOk result (λ made. made ≡ only_test followed.now test.now) }
{
    match test {
        None => Ok(None),
        Some(op) => {
            let made = narrow_op(alloc, op, followed)?;
            Ok(Some(made))
        }
    }
}

/// The block with what it reads and writes of the followed variables.
#[cycle(narrow)]
fn narrow_block(alloc: Global, nodes: &Seq<Node>, followed: &Bits) -> Result<Seq<Node>, AllocError>
    ensures { IfOk result (λ made. tree_of made ≡ only_tree followed.now (tree_of nodes.now)) }
{
    let mut made = Seq::new(alloc);
    for i in 0..nodes.len() {
        let node = narrow_node(alloc, &nodes.as_slice()[i], followed)?;
        made.push(node)?;
    }
    Ok(made)
}

#[cycle(narrow)]
fn narrow_node(alloc: Global, node: &Node, followed: &Bits) -> Result<Node, AllocError>
    ensures { IfOk result
        (λ made. then_tree made done ≡ only_tree followed.now (then_tree node.now done)) }
{
    match node {
        Node::Op(op) => {
            let op = narrow_op(alloc, op, followed)?;
            Ok(Node::Op(op))
        }
        Node::If(test, yes, no) => {
            let test = narrow_op(alloc, test, followed)?;
            let yes = narrow_block(alloc, yes, followed)?;
            let no = narrow_block(alloc, no, followed)?;
            Ok(Node::If(test, yes, no))
        }
        Node::While(prologue, test, body) => {
            let prologue = narrow_block(alloc, prologue, followed)?;
            let test = narrow_test(alloc, test, followed)?;
            let body = narrow_block(alloc, body, followed)?;
            Ok(Node::While(prologue, test, body))
        }
    }
}

/// For each operation of the code the followed variables that are live after it.
pub fn live_of(
    alloc: Global,
    code: &Seq<Node>,
    followed: &Bits,
) -> Result<Vec<Seq<u32>>, AllocError>
    ensures rows { IfOk result (λ rows. length rows.items ≡ length (states (tree_of code.now) [])) }
    ensures exact { IfOk result (λ rows. EachLists (length rows.items) rows.items
        (FollowedLive followed.now (tree_of code.now))) }
{
    let narrow = narrow_block(alloc, code, followed)?;
    let rows = live(alloc, &narrow)?;
    Ok(rows)
}
