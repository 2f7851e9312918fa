//! Statements, of what the bodies in them have become.

ghost use Rattle.std.specs.Prelude.{◌≡◌, ◌∷◌, [], IfOk};
ghost use Rattle.jz_tree.specs.Failures.{IfAnswered};
ghost use Rattle.jz_operands.specs.TableHomes.{homes_of};
ghost use Rattle.jz_rows.specs.Rows.{NeverCompares};
ghost use Rattle.jz_lowering.specs.InnerParts.{branch_lowered, loop_lowered, TestOr, LoopTestOr};
ghost use Rattle.jz_lowering.specs.InnerParts.{asking_of, flag_asking, always_asking};

use crate::operations::{numbers, operation};
use jz_change::{Change, Numbers, Step};
use jz_operands::Homes;
use jz_operations::Condition;
use jz_pinned_rows::{FlagTest, flag_test};
use jz_place::{Node, Test};
use jz_rows::{Comparison, compared, shown_of};
use jz_tree::{Expr, Failure, Seq, Span};
use std::alloc::{AllocError, Global};

/// What statements become, and the steps of the change.
#[derive(Drop)]
pub struct Lowered {
    pub nodes: Seq<Node>,
    pub steps: Seq<Step>,
}

/// A test, and the numbers that it shows.
#[derive(Drop)]
pub(crate) struct Asking {
    pub(crate) test: Test,
    pub(crate) item: Numbers,
}

fn one_node(alloc: Global, node: Node) -> Result<Seq<Node>, AllocError>
    ensures { IfOk result (λ nodes. nodes ≡ node ∷ []) }
{
    let mut nodes = Seq::new(alloc);
    nodes.push(node)?;
    Ok(nodes)
}

fn one_step(alloc: Global, step: Step) -> Result<Seq<Step>, AllocError>
    ensures { IfOk result (λ steps. steps ≡ step ∷ []) }
{
    let mut steps = Seq::new(alloc);
    steps.push(step)?;
    Ok(steps)
}

/// Nothing, as a mark becomes.
pub(crate) fn nothing(alloc: Global) -> Lowered
    ensures { result ≡ record { nodes = []; steps = [] } }
{
    Lowered {
        nodes: Seq::new(alloc),
        steps: Seq::new(alloc),
    }
}

fn asked_at(alloc: Global, span: Span, found: Comparison) -> Result<Asking, AllocError>
    ensures { IfOk result (λ made. made ≡ asking_of span found) }
{
    let item = numbers(alloc, shown_of(found, 0))?;
    let compare = operation(span, found.action);
    Ok(Asking {
        test: Test::If(Some(compare), Condition::Cc(found.cond)),
        item,
    })
}

fn flag_asked(alloc: Global, found: FlagTest) -> Asking
    ensures { result ≡ flag_asking found }
{
    Asking {
        test: Test::If(None, Condition::Flag(found.variable, found.denied)),
        item: Numbers::These(Seq::new(alloc)),
    }
}

/// A test that is no comparison. Refused where it is no bool variable either, denied or not.
fn flag_test_at(
    alloc: Global,
    homes: &Homes,
    span: Span,
    cond: &Expr,
) -> Result<Asking, Failure<Span>>
    requires { NeverCompares (homes_of homes.now) cond.now }
    ensures { IfAnswered result (TestOr (homes_of homes.now) span cond.now) }
{
    match flag_test(homes, cond) {
        None => Err(Failure::Refused(span)),
        Some(found) => Ok(flag_asked(alloc, found)),
    }
}

/// The test of an `if`. Refused where it is neither a comparison nor a bool variable, denied or
/// not.
pub(crate) fn test_at(
    alloc: Global,
    homes: &Homes,
    span: Span,
    cond: &Expr,
) -> Result<Asking, Failure<Span>>
    ensures { IfAnswered result (TestOr (homes_of homes.now) span cond.now) }
{
    match compared(homes, cond) {
        None => flag_test_at(alloc, homes, span, cond),
        Some(found) => {
            let made = asked_at(alloc, span, found)?;
            Ok(made)
        }
    }
}

fn always(alloc: Global) -> Asking
    ensures { result ≡ always_asking }
{
    Asking {
        test: Test::Always,
        item: Numbers::These(Seq::new(alloc)),
    }
}

/// The test of a `while`, which may be `true`.
pub(crate) fn loop_test_at(
    alloc: Global,
    homes: &Homes,
    span: Span,
    cond: &Expr,
) -> Result<Asking, Failure<Span>>
    ensures { IfAnswered result (LoopTestOr (homes_of homes.now) span cond.now) }
{
    match cond {
        Expr::Bool(truth, _) => {
            if *truth {
                Ok(always(alloc))
            } else {
                Err(Failure::Refused(span))
            }
        }
        _ => {
            let made = test_at(alloc, homes, span, cond)?;
            Ok(made)
        }
    }
}

/// An `if` with its arms.
pub(crate) fn branch(
    alloc: Global,
    asked: Asking,
    holds: Lowered,
    other: Lowered,
) -> Result<Lowered, AllocError>
    ensures { IfOk result (λ made. made ≡ branch_lowered asked holds other) }
{
    let Asking { test, item } = asked;
    let Lowered {
        nodes: then_nodes,
        steps: then_steps,
    } = holds;
    let Lowered {
        nodes: else_nodes,
        steps: else_steps,
    } = other;
    let step = Step::If {
        before: Seq::new(alloc),
        test: item,
        then_part: Change { steps: then_steps },
        else_part: Change { steps: else_steps },
    };
    let steps = one_step(alloc, step)?;
    let nodes = one_node(alloc, Node::If(test, then_nodes, else_nodes))?;
    Ok(Lowered { nodes, steps })
}

/// A `while` with its prologue and its body, or written without one.
pub(crate) fn turns(
    alloc: Global,
    bare: bool,
    prologue: Lowered,
    asked: Asking,
    body: Lowered,
) -> Result<Lowered, AllocError>
    ensures { IfOk result (λ made. made ≡ loop_lowered bare prologue asked body) }
{
    let Asking { test, item } = asked;
    let Lowered {
        nodes: before,
        steps: before_steps,
    } = prologue;
    let Lowered {
        nodes: turn,
        steps: turn_steps,
    } = body;
    let step = Step::While {
        prologue: Change {
            steps: before_steps,
        },
        before: Seq::new(alloc),
        test: item,
        body: Change { steps: turn_steps },
    };
    let steps = one_step(alloc, step)?;
    let nodes = one_node(alloc, Node::While(bare, before, test, turn))?;
    Ok(Lowered { nodes, steps })
}
