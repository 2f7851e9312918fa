//! A function as the placing of its variables sees it.

ghost use Rattle.std.specs.Prelude.{◌≡◌, ◌∷◌, [], ◌++◌, map, IfOk, OnOk};
ghost use Rattle.jz_ir.specs.declared.code.Node.TheVariants as node;
ghost use Rattle.jz_ir.specs.Tree.{then_tree, tree_of, done};
ghost use Rattle.jz_runs.specs.Trees as body;
ghost use Rattle.jz_operations.specs.Reading.{flag_read, seen_of};
ghost use Rattle.jz_placing.specs.Flow.{asked_op, flow};
ghost use Rattle.jz_placing.specs.Variables.{test_seen, test_of};
ghost use Rattle.jz_place.specs.Bodies.{asked_of, then_body, body_of, need_by};
ghost use Rattle.jz_place.specs.Bodies.{entry_op, return_op, whole_of};

use crate::tree::{Ir, Node, Passed, Test};
use jz_data::Seq;
use jz_fit::Branching;
use jz_io::Span;
use jz_ir::{Need, Op};
use jz_operations::{Condition, Operation, seen};
use std::alloc::{AllocError, Global};
use x64_insn::Place;

/// An operation that reads these variables and does nothing.
fn reading(alloc: Global, reads: Seq<u32>) -> Op
    ensures { result ≡ record {
      span = record { line = 0; col = 0 };
      reads = reads;
      writes = [];
      fixed = [];
      needs = [];
    } }
{
    Op {
        span: Span { line: 0, col: 0 },
        reads,
        writes: Seq::new(alloc),
        fixed: Seq::new(alloc),
        needs: Seq::new(alloc),
    }
}

fn flags_read(alloc: Global, condition: Condition) -> Result<Seq<u32>, AllocError>
    ensures { IfOk result (λ reads. reads ≡ flag_read condition) }
{
    match condition {
        Condition::Cc(_) => Ok(Seq::new(alloc)),
        Condition::Flag(variable, _) => {
            let reads = Seq::from_slice(alloc, &[variable])?;
            Ok(reads)
        }
    }
}

fn seen_condition(
    alloc: Global,
    compare: Option<Operation>,
    condition: Condition,
) -> Result<Op, AllocError>
    ensures { IfOk result (λ op. op ≡ test_seen compare condition) }
{
    match compare {
        Some(operation) => {
            let op = seen(alloc, &operation)?;
            Ok(op)
        }
        None => {
            let reads = flags_read(alloc, condition)?;
            Ok(reading(alloc, reads))
        }
    }
}

/// The operation of a loop's test, where it has one.
fn seen_test(alloc: Global, test: Test) -> Result<Option<Op>, AllocError>
    ensures { IfOk result (λ op. op ≡ test_of (asked_of test)) }
{
    match test {
        Test::Always => Ok(None),
        Test::If(compare, condition) => {
            let op = seen_condition(alloc, compare, condition)?;
            Ok(Some(op))
        }
    }
}

/// The operation of a branch's test.
fn seen_branch(alloc: Global, test: Test) -> Result<Op, AllocError>
    ensures { IfOk result (λ op. op ≡ asked_op (test_of (asked_of test))) }
{
    match test {
        Test::Always => Ok(reading(alloc, Seq::new(alloc))),
        Test::If(compare, condition) => {
            let op = seen_condition(alloc, compare, condition)?;
            Ok(op)
        }
    }
}

#[cycle(seen)]
fn seen_block(alloc: Global, nodes: &Seq<Node>) -> Result<Seq<jz_ir::Node>, AllocError>
    ensures { IfOk result (λ made. tree_of made ≡ flow seen_of test_of (body_of nodes.now) done) }
{
    let mut made = Seq::new(alloc);
    for i in 0..nodes.len() {
        let node = seen_node(alloc, &nodes.as_slice()[i])?;
        made.push(node)?;
    }
    Ok(made)
}

#[cycle(seen)]
fn seen_node(alloc: Global, node: &Node) -> Result<jz_ir::Node, AllocError>
    ensures { IfOk result (λ made. then_tree made done
        ≡ flow seen_of test_of (then_body node.now body.done) done) }
{
    match node {
        Node::Do(operation) => {
            let op = seen(alloc, operation)?;
            Ok(jz_ir::Node::Op(op))
        }
        Node::If(test, yes, no) => {
            let op = seen_branch(alloc, *test)?;
            let yes = seen_block(alloc, yes)?;
            let no = seen_block(alloc, no)?;
            Ok(jz_ir::Node::If(op, yes, no))
        }
        Node::While(_, prologue, test, inner) => {
            let prologue = seen_block(alloc, prologue)?;
            let op = seen_test(alloc, *test)?;
            let inner = seen_block(alloc, inner)?;
            Ok(jz_ir::Node::While(prologue, op, inner))
        }
    }
}

fn need_of(passed: Passed) -> Need
    ensures { result ≡ need_by passed }
{
    Need {
        variable: passed.variable.variable,
        place: Place::Reg(passed.reg),
        span: passed.variable.span,
    }
}

/// The entry writes a parameter.
fn entering(alloc: Global, passed: Passed) -> Result<Op, AllocError>
    ensures { IfOk result (λ op. op ≡ entry_op passed) }
{
    let writes = Seq::from_slice(alloc, &[passed.variable.variable])?;
    let needs = Seq::from_slice(alloc, &[need_of(passed)])?;
    Ok(Op {
        span: passed.variable.span,
        reads: Seq::new(alloc),
        writes,
        fixed: Seq::new(alloc),
        needs,
    })
}

/// The return reads a result.
fn returning(alloc: Global, passed: Passed) -> Result<Op, AllocError>
    ensures { IfOk result (λ op. op ≡ return_op passed) }
{
    let reads = Seq::from_slice(alloc, &[passed.variable.variable])?;
    let wanted = Seq::from_slice(alloc, &[need_of(passed)])?;
    Ok(Op {
        span: passed.variable.span,
        reads,
        writes: Seq::new(alloc),
        fixed: Seq::new(alloc),
        needs: wanted,
    })
}

fn entry_nodes(alloc: Global, entry: &Seq<Passed>) -> Result<Seq<jz_ir::Node>, AllocError>
    ensures { IfOk result (λ made. made ≡ map (λ p. node.Op (entry_op p)) entry.now) }
{
    let mut made = Seq::new(alloc);
    for passed in entry.as_slice() {
        let op = entering(alloc, *passed)?;
        made.push(jz_ir::Node::Op(op))?;
    }
    Ok(made)
}

fn return_nodes(alloc: Global, results: &Seq<Passed>) -> Result<Seq<jz_ir::Node>, AllocError>
    ensures { IfOk result (λ made. made ≡ map (λ p. node.Op (return_op p)) results.now) }
{
    let mut made = Seq::new(alloc);
    for passed in results.as_slice() {
        let op = returning(alloc, *passed)?;
        made.push(jz_ir::Node::Op(op))?;
    }
    Ok(made)
}

/// What the placing of variables sees of a function: the entry writes the parameters, the body
/// follows, and the return reads the results, each where the text names it.
pub fn branching(alloc: Global, ir: &Ir) -> Result<Branching, AllocError>
    ensures tree { IfOk result (λ made. tree_of made.nodes ≡ whole_of ir.now) }
    ensures kinds { IfOk result (λ made. made.kinds ≡ ir.now.kinds) }
    ensures in_use { IfOk result (λ made. made.in_use ≡ ir.now.in_use) }
{
    let mut nodes = entry_nodes(alloc, &ir.entry)?;
    let inner = seen_block(alloc, &ir.body)?;
    nodes.append(inner)?;
    let last = return_nodes(alloc, &ir.results)?;
    nodes.append(last)?;
    let kinds = Seq::from_slice(alloc, ir.kinds.as_slice())?;
    let in_use = Seq::from_slice(alloc, ir.in_use.as_slice())?;
    Ok(Branching {
        nodes,
        kinds,
        in_use,
    })
}
