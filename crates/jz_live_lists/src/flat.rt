//! The operations of code with branches and loops, one after another.

ghost use Rattle.std.specs.Prelude.{◌≡◌, ◌++◌, ◌∷◌, [], IfOk, OnOk};
ghost use Rattle.jz_ir.specs.Tree.{then_tree, tree_of, done, ops_of};
ghost use Rattle.jz_live_lists.specs.InnerOps.{ops_in};

use jz_data::Seq;
use jz_ir::{Node, Op};
use std::alloc::{AllocError, Global};

fn copy_of(alloc: Global, op: &Op) -> Result<Op, AllocError>
    ensures { IfOk result (λ copy. copy ≡ op.now) }
{
    let reads = Seq::from_slice(alloc, op.reads.as_slice())?;
    let writes = Seq::from_slice(alloc, op.writes.as_slice())?;
    let fixed = Seq::from_slice(alloc, op.fixed.as_slice())?;
    let needs = Seq::from_slice(alloc, op.needs.as_slice())?;
    Ok(Op {
        span: op.span,
        reads,
        writes,
        fixed,
        needs,
    })
}

fn add(alloc: Global, ops: &mut Seq<Op>, op: &Op) -> Result<(), AllocError>
    ensures { OnOk result (ops.new ≡ ops.old ++ op.now ∷ []) }
{
    let copy = copy_of(alloc, op)?;
    ops.push(copy)?;
    Ok(())
}

/// Adds the operations of a block.
#[cycle(collect)]
fn collect_block(alloc: Global, ops: &mut Seq<Op>, nodes: &Seq<Node>) -> Result<(), AllocError>
    ensures { OnOk result (ops.new ≡ ops.old ++ ops_in (tree_of nodes.now)) }
{
    for i in 0..nodes.len() {
        collect_node(alloc, ops, &nodes.as_slice()[i])?;
    }
    Ok(())
}

#[cycle(collect)]
fn collect_node(alloc: Global, ops: &mut Seq<Op>, node: &Node) -> Result<(), AllocError>
    ensures { OnOk result (ops.new ≡ ops.old ++ ops_in (then_tree node.now done)) }
{
    match node {
        Node::Op(op) => {
            add(alloc, ops, op)?;
            Ok(())
        }
        Node::If(test, yes, no) => {
            add(alloc, ops, test)?;
            collect_block(alloc, ops, yes)?;
            collect_block(alloc, ops, no)?;
            Ok(())
        }
        Node::While(prologue, test, body) => {
            collect_block(alloc, ops, prologue)?;
            if let Some(op) = test {
                add(alloc, ops, op)?;
            }
            collect_block(alloc, ops, body)?;
            Ok(())
        }
    }
}

/// The operations of the code, in its order.
pub fn flat_ops(alloc: Global, code: &Seq<Node>) -> Result<Seq<Op>, AllocError>
    ensures { IfOk result (λ ops. ops ≡ ops_of (tree_of code.now)) }
{
    let mut ops = Seq::new(alloc);
    collect_block(alloc, &mut ops, code)?;
    Ok(ops)
}
