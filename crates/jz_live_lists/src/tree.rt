//! Liveness in code with branches and loops, by lists of variables.

ghost use Rattle.std.specs.Prelude.{◌≡◌, ℕ, ◌++◌, ◌∷◌, [], length, IfOk, OnOk};
ghost use Rattle.jz_ir.specs.Paths.{among};
ghost use Rattle.jz_ir.specs.Tree.{then_tree, tree_of, done, LiveInTree, states};
ghost use Rattle.jz_live.specs.Lives.{live_after_each, live_before, test_after, test_before};
ghost use Rattle.jz_live_lists.specs.InnerColumns.{column};
ghost use Rattle.jz_live_lists.specs.Lists.{EachLists};

use crate::lists::{add_all, before_op};
use jz_data::Seq;
use jz_ir::{Node, Op};
use std::alloc::{AllocError, Global};

/// What is live before a block.
#[cycle(before)]
fn before_block(alloc: Global, nodes: &Seq<Node>, behind: Seq<u32>) -> Result<Seq<u32>, AllocError>
    ensures { IfOk result (λ live. (variable : ℕ) → among live variable
        ≡ live_before variable (tree_of nodes.now) (among behind variable)) }
{
    let mut live = behind;
    for i in (0..nodes.len()).rev() {
        live = before_node(alloc, &nodes.as_slice()[i], live)?;
    }
    Ok(live)
}

#[cycle(before)]
fn before_node(alloc: Global, node: &Node, behind: Seq<u32>) -> Result<Seq<u32>, AllocError>
    ensures { IfOk result (λ live. (variable : ℕ) → among live variable
        ≡ live_before variable (then_tree node.now done) (among behind variable)) }
{
    match node {
        Node::Op(op) => {
            let live = before_op(alloc, op, &behind)?;
            Ok(live)
        }
        Node::If(test, yes, no) => {
            let mut live = before_block(alloc, yes, Seq::from_slice(alloc, behind.as_slice())?)?;
            let other = before_block(alloc, no, behind)?;
            add_all(alloc, &mut live, &other)?;
            let live = before_op(alloc, test, &live)?;
            Ok(live)
        }
        Node::While(prologue, test, body) => {
            let first = before_block(alloc, body, Seq::new(alloc))?;
            let at_test = before_test(alloc, test, first, &behind)?;
            let live = before_block(alloc, prologue, at_test)?;
            Ok(live)
        }
    }
}

/// What is live before the test of a loop.
fn before_test(
    alloc: Global,
    test: &Option<Op>,
    at_body: Seq<u32>,
    behind: &Seq<u32>,
) -> Result<Seq<u32>, AllocError>
    ensures { IfOk result (λ live. (variable : ℕ) → among live variable
        ≡ test_before variable test.now (among at_body variable) (among behind.now variable)) }
{
    match test {
        None => Ok(at_body),
        Some(op) => {
            let mut live = at_body;
            add_all(alloc, &mut live, behind)?;
            let live = before_op(alloc, op, &live)?;
            Ok(live)
        }
    }
}

/// Adds what is live after each operation of a block, the last first, and gives what is live before
/// it.
#[cycle(rows)]
fn rows_block(
    alloc: Global,
    rows: &mut Vec<Seq<u32>>,
    nodes: &Seq<Node>,
    behind: Seq<u32>,
) -> Result<Seq<u32>, AllocError>
    ensures set { IfOk result (λ live. (variable : ℕ) → among live variable
        ≡ live_before variable (tree_of nodes.now) (among behind variable)) }
    ensures rows { IfOk result (λ live. (variable : ℕ) → column variable rows.new.items
        ≡ live_after_each variable (tree_of nodes.now) (among behind variable)
        ++ column variable rows.old.items) }
{
    let mut live = behind;
    for i in (0..nodes.len()).rev() {
        live = rows_node(alloc, rows, &nodes.as_slice()[i], live)?;
    }
    Ok(live)
}

#[cycle(rows)]
fn rows_node(
    alloc: Global,
    rows: &mut Vec<Seq<u32>>,
    node: &Node,
    behind: Seq<u32>,
) -> Result<Seq<u32>, AllocError>
    ensures set { IfOk result (λ live. (variable : ℕ) → among live variable
        ≡ live_before variable (then_tree node.now done) (among behind variable)) }
    ensures rows { IfOk result (λ live. (variable : ℕ) → column variable rows.new.items
        ≡ live_after_each variable (then_tree node.now done) (among behind variable)
        ++ column variable rows.old.items) }
{
    match node {
        Node::Op(op) => {
            let live = before_op(alloc, op, &behind)?;
            add_row(rows, behind)?;
            Ok(live)
        }
        Node::If(test, yes, no) => {
            let other = rows_block(alloc, rows, no, Seq::from_slice(alloc, behind.as_slice())?)?;
            let mut after = rows_block(alloc, rows, yes, behind)?;
            add_all(alloc, &mut after, &other)?;
            let live = before_op(alloc, test, &after)?;
            add_row(rows, after)?;
            Ok(live)
        }
        Node::While(prologue, test, body) => {
            let first = before_block(alloc, body, Seq::new(alloc))?;
            let at_test = before_test(alloc, test, first, &behind)?;
            let head = before_block(alloc, prologue, at_test)?;
            let live = rows_block(alloc, rows, body, head)?;
            let live = rows_test(alloc, rows, test, live, &behind)?;
            let live = rows_block(alloc, rows, prologue, live)?;
            Ok(live)
        }
    }
}

/// Adds a row.
fn add_row(rows: &mut Vec<Seq<u32>>, live: Seq<u32>) -> Result<(), AllocError>
    ensures { OnOk result ((variable : ℕ) → column variable rows.new.items
        ≡ among live variable ∷ column variable rows.old.items) }
{
    rows.push(live)?;
    Ok(())
}

/// Adds the row of a test, and gives what is live before it.
fn rows_test(
    alloc: Global,
    rows: &mut Vec<Seq<u32>>,
    test: &Option<Op>,
    at_body: Seq<u32>,
    behind: &Seq<u32>,
) -> Result<Seq<u32>, AllocError>
    ensures set { IfOk result (λ live. (variable : ℕ) → among live variable
        ≡ test_before variable test.now (among at_body variable) (among behind.now variable)) }
    ensures rows { IfOk result (λ live. (variable : ℕ) → column variable rows.new.items
        ≡ test_after variable test.now (among at_body variable) (among behind.now variable)
        ++ column variable rows.old.items) }
{
    match test {
        None => Ok(at_body),
        Some(op) => {
            let mut after = at_body;
            add_all(alloc, &mut after, behind)?;
            let live = before_op(alloc, op, &after)?;
            add_row(rows, after)?;
            Ok(live)
        }
    }
}

/// For each operation of the code the variables live after it.
pub fn live(alloc: Global, code: &Seq<Node>) -> Result<Vec<Seq<u32>>, AllocError>
    ensures rows { IfOk result (λ rows. length rows.items ≡ length (states (tree_of code.now) [])) }
    ensures exact { IfOk result
        (λ rows. EachLists (length rows.items) rows.items (LiveInTree (tree_of code.now))) }
{
    let mut rows = Vec::new(alloc);
    rows_block(alloc, &mut rows, code, Seq::new(alloc))?;
    rows.reverse();
    Ok(rows)
}
