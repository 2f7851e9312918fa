//! How many parts a body has.

ghost use Rattle.std.specs.Prelude.{◌≡◌, IsTrue, IsFalse};
ghost use Rattle.jz_runs.specs.Trees.{done};
ghost use Rattle.jz_place.specs.Bodies.{body_of, then_body};
ghost use Rattle.jz_codable.specs.Ready.{parts_of, IsShort};
ghost use Rattle.jz_codable.specs.InnerParts.{left_of};

use jz_data::Seq;
use jz_place::{Ir, Node};

fn without_one(left: u32) -> Option<u32>
    ensures { result ≡ left_of left 1 }
{
    if left > 0 { Some(left - 1) } else { None }
}

#[cycle(parts)]
fn without_node(node: &Node, left: u32) -> Option<u32>
    ensures { result ≡ left_of left (parts_of (then_body node.now done)) }
{
    match node {
        Node::Do(_) => without_one(left),
        Node::If(_, holds, other) => {
            let rest = without_one(left)?;
            let after = without_all(holds, rest)?;
            let behind = without_all(other, after)?;
            Some(behind)
        }
        Node::While(_, prologue, _, body) => {
            let rest = without_one(left)?;
            let after = without_all(prologue, rest)?;
            let behind = without_all(body, after)?;
            Some(behind)
        }
    }
}

/// What is left of so many without the parts of a body, where there are no more.
#[cycle(parts)]
fn without_all(nodes: &Seq<Node>, left: u32) -> Option<u32>
    ensures { result ≡ left_of left (parts_of (body_of nodes.now)) }
{
    let mut rest = left;
    for node in nodes.as_slice() {
        rest = without_node(node, rest)?;
    }
    Some(rest)
}

/// Whether a function has fewer than 2^32 variables, and its body fewer than 2^26 operations,
/// branches and loops. The stack grows with the nesting of the body.
pub fn is_short(ir: &Ir) -> bool
    ensures fits { IsTrue result → IsShort ir.now }
    ensures only { IsFalse result → IsShort ir.now → ⊥ }
{
    if ir.kinds.len() > 0xffff_ffff {
        return false;
    }
    without_all(&ir.body, 0x3ff_ffff).is_some()
}
