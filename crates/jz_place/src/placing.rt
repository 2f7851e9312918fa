//! The instructions of a function whose variables have places.

ghost use Rattle.std.specs.Prelude.{◌≡◌, IfOk, option_map};
ghost use Rattle.jz_runs.specs.Trees.{done};
ghost use Rattle.jz_operations.specs.Rows.{accesses};
ghost use Rattle.jz_operations.specs.Insns.{AllFit, insn_of, places_in, slots_in};
ghost use Rattle.jz_placing.specs.Placing.{code_of, test_for};
ghost use Rattle.jz_place.specs.Bodies.{asked_of, then_body, body_of};
ghost use Rattle.jz_place.specs.Codes.{test_in, then_code, code_in, TestFits, BodyFits};
ghost use Rattle.jz_place.specs.Laws.{AreGood, HasNoOtherRuns, KeepsRuns};

use crate::placed::{PlacedNode, PlacedTest};
use crate::tree::{Ir, Node, Test};
use jz_data::Seq;
use jz_operations::Places;
use std::alloc::{AllocError, Global};

fn place_test(places: &Places<'_>, test: Test) -> PlacedTest
    requires { TestFits (slots_in places.now) (asked_of test) }
    ensures { test_in result ≡ test_for (places_in places.now) (slots_in places.now)
        (asked_of test) }
{
    match test {
        Test::Always => PlacedTest::Always,
        Test::If(None, condition) => PlacedTest::If(None, places.cond(condition)),
        Test::If(Some(operation), condition) => {
            PlacedTest::If(Some(places.insn(operation.action)), places.cond(condition))
        }
    }
}

#[cycle(place)]
fn place_block(
    alloc: Global,
    places: &Places<'_>,
    nodes: &Seq<Node>,
) -> Result<Seq<PlacedNode>, AllocError>
    requires { BodyFits (slots_in places.now) (body_of nodes.now) }
    ensures { IfOk result (λ made. code_in made
        ≡ code_of (places_in places.now) (slots_in places.now) (body_of nodes.now)) }
{
    let mut made = Seq::new(alloc);
    for i in 0..nodes.len() {
        let node = place_node(alloc, places, &nodes.as_slice()[i])?;
        made.push(node)?;
    }
    Ok(made)
}

#[cycle(place)]
fn place_node(alloc: Global, places: &Places<'_>, node: &Node) -> Result<PlacedNode, AllocError>
    requires { BodyFits (slots_in places.now) (then_body node.now done) }
    ensures { IfOk result (λ made. then_code made done
        ≡ code_of (places_in places.now) (slots_in places.now) (then_body node.now done)) }
{
    match node {
        Node::Do(operation) => Ok(PlacedNode::Do(places.insn(operation.action))),
        Node::If(test, yes, no) => {
            let test = place_test(places, *test);
            let yes = place_block(alloc, places, yes)?;
            let no = place_block(alloc, places, no)?;
            Ok(PlacedNode::If(test, yes, no))
        }
        Node::While(bare, prologue, test, inner) => {
            let prologue = place_block(alloc, places, prologue)?;
            let test = place_test(places, *test);
            let inner = place_block(alloc, places, inner)?;
            Ok(PlacedNode::While(*bare, prologue, test, inner))
        }
    }
}

/// The instructions of the body: each variable is its place, and each cell of a stack variable one
/// of the frame. With places that meet the rule of placing, the instructions do what the body does,
/// and nothing else.
pub fn place(alloc: Global, ir: &Ir, places: &Places<'_>) -> Result<Seq<PlacedNode>, AllocError>
    requires { BodyFits (slots_in places.now) (body_of ir.now.body) }
    ensures code { IfOk result (λ placed. code_in placed
        ≡ code_of (places_in places.now) (slots_in places.now) (body_of ir.now.body)) }
    ensures runs { IfOk result (λ placed. AreGood ir.now places.now.places.now
        → KeepsRuns ir.now (places_in places.now) (slots_in places.now) (code_in placed)) }
    ensures only { IfOk result (λ placed. AreGood ir.now places.now.places.now
        → HasNoOtherRuns ir.now (places_in places.now) (slots_in places.now) (code_in placed)) }
{
    let placed = place_block(alloc, places, &ir.body)?;
    Ok(placed)
}
