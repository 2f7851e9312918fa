//! Liveness in code with branches and loops.

ghost use Rattle.std.specs.Prelude.{◌≡◌, ℕ, ◌+◌, ◌*◌, ◌/◌, ◌∷◌, [], length, IfOk, OnOk};
ghost use Rattle.std.specs.List.{All};
ghost use Rattle.jz_bits.specs.Has.{has};
ghost use Rattle.jz_ir.specs.Tree.{then_tree, tree_of, done, LiveInTree, states};
ghost use Rattle.jz_live.specs.InnerLives.{AddsLive, AddsTest, LiveBefore, LiveBeforeTest, column};
ghost use Rattle.jz_live.specs.Lives.{EachLives, TestBelow, TreeBelow};

use crate::straight::step_back;
use jz_bits::Bits;
use jz_data::Seq;
use jz_ir::{Node, Op};
use std::alloc::{AllocError, Global};

/// What is live before a block.
#[cycle(before)]
fn before_block(alloc: Global, nodes: &Seq<Node>, behind: Bits) -> Result<Bits, AllocError>
    requires { TreeBelow (64 * length behind) (tree_of nodes.now) }
    ensures wide { IfOk result (λ live. length live ≡ length behind) }
    ensures set { IfOk result (LiveBefore (tree_of nodes.now) behind) }
{
    let mut live = behind;
    for i in (0..nodes.len()).rev() {
        live = before_node(alloc, &nodes.as_slice()[i], live)?;
    }
    Ok(live)
}

#[cycle(before)]
fn before_node(alloc: Global, node: &Node, behind: Bits) -> Result<Bits, AllocError>
    requires { TreeBelow (64 * length behind) (then_tree node.now done) }
    ensures wide { IfOk result (λ live. length live ≡ length behind) }
    ensures set { IfOk result (LiveBefore (then_tree node.now done) behind) }
{
    match node {
        Node::Op(op) => {
            let mut live = behind;
            step_back(&mut live, op);
            Ok(live)
        }
        Node::If(test, yes, no) => {
            let mut live = before_block(alloc, yes, behind.copy(alloc)?)?;
            live.union(&before_block(alloc, no, behind)?);
            step_back(&mut live, test);
            Ok(live)
        }
        Node::While(prologue, test, body) => {
            let live = before_block(alloc, body, behind.empty_like(alloc)?)?;
            before_block(alloc, prologue, before_test(test, live, &behind))
        }
    }
}

/// What is live before the test of a loop.
fn before_test(test: &Option<Op>, at_body: Bits, behind: &Bits) -> Bits
    requires wide { length behind.now ≡ length at_body }
    requires below { TestBelow (64 * length at_body) test.now }
    ensures wide { length result ≡ length at_body }
    ensures set { LiveBeforeTest test.now at_body behind.now result }
{
    match test {
        None => at_body,
        Some(op) => {
            let mut live = at_body;
            live.union(behind);
            step_back(&mut live, op);
            live
        }
    }
}

/// Adds what is live after each operation of a block, the last first, and gives what is live before
/// it.
#[cycle(rows)]
fn rows_block(
    alloc: Global,
    rows: &mut Vec<Bits>,
    nodes: &Seq<Node>,
    behind: Bits,
) -> Result<Bits, AllocError>
    requires below { TreeBelow (64 * length behind) (tree_of nodes.now) }
    requires rows_wide { All (λ row. length row ≡ length behind) rows.old.items }
    ensures wide { IfOk result (λ live. length live ≡ length behind) }
    ensures set { IfOk result (LiveBefore (tree_of nodes.now) behind) }
    ensures rows { IfOk result
        (λ live. AddsLive (tree_of nodes.now) behind rows.old.items rows.new.items) }
    ensures rows_wide { IfOk result
        (λ live. All (λ row. length row ≡ length behind) rows.new.items) }
{
    let mut live = behind;
    for i in (0..nodes.len()).rev() {
        live = rows_node(alloc, rows, &nodes.as_slice()[i], live)?;
    }
    Ok(live)
}

#[cycle(rows)]
fn rows_node(
    alloc: Global,
    rows: &mut Vec<Bits>,
    node: &Node,
    behind: Bits,
) -> Result<Bits, AllocError>
    requires below { TreeBelow (64 * length behind) (then_tree node.now done) }
    requires rows_wide { All (λ row. length row ≡ length behind) rows.old.items }
    ensures wide { IfOk result (λ live. length live ≡ length behind) }
    ensures set { IfOk result (LiveBefore (then_tree node.now done) behind) }
    ensures rows { IfOk result
        (λ live. AddsLive (then_tree node.now done) behind rows.old.items rows.new.items) }
    ensures rows_wide { IfOk result
        (λ live. All (λ row. length row ≡ length behind) rows.new.items) }
{
    match node {
        Node::Op(op) => {
            add_row(alloc, rows, &behind)?;
            let mut live = behind;
            step_back(&mut live, op);
            Ok(live)
        }
        Node::If(test, yes, no) => {
            let other = rows_block(alloc, rows, no, behind.copy(alloc)?)?;
            let mut live = rows_block(alloc, rows, yes, behind)?;
            live.union(&other);
            add_row(alloc, rows, &live)?;
            step_back(&mut live, test);
            Ok(live)
        }
        Node::While(prologue, test, body) => {
            let first = before_block(alloc, body, behind.empty_like(alloc)?)?;
            let head = before_block(alloc, prologue, before_test(test, first, &behind))?;
            let live = rows_block(alloc, rows, body, head)?;
            let live = rows_test(alloc, rows, test, live, &behind)?;
            let live = rows_block(alloc, rows, prologue, live)?;
            Ok(live)
        }
    }
}

/// Adds a row.
fn add_row(alloc: Global, rows: &mut Vec<Bits>, live: &Bits) -> Result<(), AllocError>
    requires { All (λ row. length row ≡ length live.now) rows.old.items }
    ensures rows { OnOk result ((v : ℕ)
        → column v rows.new.items ≡ has live.now v ∷ column v rows.old.items) }
    ensures rows_wide { OnOk result (All (λ row. length row ≡ length live.now) rows.new.items) }
{
    rows.push(live.copy(alloc)?)?;
    Ok(())
}

/// Adds the row of a test, and gives what is live before it.
fn rows_test(
    alloc: Global,
    rows: &mut Vec<Bits>,
    test: &Option<Op>,
    at_body: Bits,
    behind: &Bits,
) -> Result<Bits, AllocError>
    requires wide { length behind.now ≡ length at_body }
    requires rows_wide { All (λ row. length row ≡ length at_body) rows.old.items }
    requires below { TestBelow (64 * length at_body) test.now }
    ensures wide { IfOk result (λ live. length live ≡ length at_body) }
    ensures set { IfOk result (LiveBeforeTest test.now at_body behind.now) }
    ensures rows { IfOk result
        (λ live. AddsTest test.now at_body behind.now rows.old.items rows.new.items) }
    ensures rows_wide { IfOk result
        (λ live. All (λ row. length row ≡ length at_body) rows.new.items) }
{
    match test {
        None => Ok(at_body),
        Some(op) => {
            let mut live = at_body;
            live.union(behind);
            add_row(alloc, rows, &live)?;
            step_back(&mut live, op);
            Ok(live)
        }
    }
}

/// For each operation of the code the variables live after it.
pub fn live(alloc: Global, code: &Seq<Node>, count: usize) -> Result<Vec<Bits>, AllocError>
    requires { TreeBelow count (tree_of code.now) }
    ensures rows { IfOk result (λ rows. length rows.items ≡ length (states (tree_of code.now) [])) }
    ensures wide { IfOk result (λ rows. All (λ row. length row ≡ count / 64 + 1) rows.items) }
    ensures exact { IfOk result
        (λ rows. EachLives (length rows.items) rows.items (LiveInTree (tree_of code.now))) }
{
    let mut rows = Vec::new(alloc);
    let behind = Bits::new(alloc, count)?;
    rows_block(alloc, &mut rows, code, behind)?;
    rows.reverse();
    Ok(rows)
}
