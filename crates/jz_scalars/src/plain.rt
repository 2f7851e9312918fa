//! Statements, of what the bodies in them have become.

ghost use Rattle.std.specs.Prelude.{◌≡◌, ◌∷◌, [], IfOk};
ghost use Rattle.jz_scalars.specs.Scalars as scalars;

use crate::expressions::{all_with_scalars, condition_with_scalars, with_scalars};
use crate::lefts::lefts_with_scalars;
use crate::made::{Made, MadeKind};
use crate::numbers::{statement_numbers, test_numbers};
use jz_change::{Change, Step};
use jz_tree::{BinOp, Expr, Lval, Rhs, Seq, StmtKind, Var, copy_vars};
use std::alloc::{AllocError, Global};

fn one_step(alloc: Global, step: Step) -> Result<Seq<Step>, AllocError>
    ensures { IfOk result (λ steps. steps ≡ step ∷ []) }
{
    let mut steps = Seq::new(alloc);
    steps.push(step)?;
    Ok(steps)
}

fn right_with_scalars(alloc: Global, rhs: &Rhs) -> Result<Rhs, AllocError>
    ensures { IfOk result (λ made. made ≡ scalars.right_with_scalars rhs.now) }
{
    match rhs {
        Rhs::Value(e) => Ok(Rhs::Value(with_scalars(alloc, e)?)),
        Rhs::Call(name, args, span) => {
            let args = all_with_scalars(alloc, args)?;
            Ok(Rhs::Call(name.clone()?, args, *span))
        }
        Rhs::Intrinsic(name, args, span) => {
            let args = all_with_scalars(alloc, args)?;
            Ok(Rhs::Intrinsic(name.clone()?, args, *span))
        }
    }
}

/// The step of an assignment.
fn assign_steps(
    alloc: Global,
    to: &Seq<Lval>,
    op: Option<BinOp>,
    rhs: &Rhs,
    cond: &Option<Expr>,
) -> Result<Seq<Step>, AllocError>
    ensures { let all = scalars.assign_steps to.now op rhs.now cond.now in
        IfOk result (λ steps. steps ≡ all) }
{
    let numbers = statement_numbers(alloc, to, op, rhs, cond)?;
    let mut items = Seq::new(alloc);
    items.push(numbers)?;
    let steps = one_step(alloc, Step::Ops(items))?;
    Ok(steps)
}

pub(crate) fn made_assign(
    alloc: Global,
    to: &Seq<Lval>,
    op: Option<BinOp>,
    rhs: &Rhs,
    cond: &Option<Expr>,
) -> Result<MadeKind, AllocError>
    ensures { IfOk result (λ made. made ≡ scalars.made_assign to.now op rhs.now cond.now) }
{
    let steps = assign_steps(alloc, to, op, rhs, cond)?;
    let kind = StmtKind::Assign {
        to: lefts_with_scalars(alloc, to)?,
        op,
        rhs: right_with_scalars(alloc, rhs)?,
        cond: condition_with_scalars(alloc, cond)?,
    };
    Ok(MadeKind { kind, steps })
}

pub(crate) fn made_if(
    alloc: Global,
    cond: &Expr,
    holds: Made,
    other: Made,
) -> Result<MadeKind, AllocError>
    ensures { IfOk result (λ made. made ≡ scalars.made_if cond.now holds other) }
{
    let test = test_numbers(alloc, cond)?;
    let cond = with_scalars(alloc, cond)?;
    let Made {
        stmts: then_stmts,
        steps: then_steps,
    } = holds;
    let Made {
        stmts: else_stmts,
        steps: else_steps,
    } = other;
    let step = Step::If {
        before: Seq::new(alloc),
        test,
        then_part: Change { steps: then_steps },
        else_part: Change { steps: else_steps },
    };
    let steps = one_step(alloc, step)?;
    let kind = StmtKind::If(cond, then_stmts, else_stmts);
    Ok(MadeKind { kind, steps })
}

/// A loop that ends with its test.
pub(crate) fn made_until(alloc: Global, prologue: Made, cond: &Expr) -> Result<MadeKind, AllocError>
    ensures { IfOk result (λ made. made ≡ scalars.made_until prologue cond.now) }
{
    let test = test_numbers(alloc, cond)?;
    let cond = with_scalars(alloc, cond)?;
    let Made {
        stmts: prologue,
        steps: before,
    } = prologue;
    let step = Step::While {
        prologue: Change { steps: before },
        before: Seq::new(alloc),
        test,
        body: Change {
            steps: Seq::new(alloc),
        },
    };
    let steps = one_step(alloc, step)?;
    let kind = StmtKind::While {
        prologue,
        cond,
        body: None,
    };
    Ok(MadeKind { kind, steps })
}

pub(crate) fn made_turns(
    alloc: Global,
    prologue: Made,
    cond: &Expr,
    body: Made,
) -> Result<MadeKind, AllocError>
    ensures { IfOk result (λ made. made ≡ scalars.made_turns prologue cond.now body) }
{
    let test = test_numbers(alloc, cond)?;
    let cond = with_scalars(alloc, cond)?;
    let Made {
        stmts: prologue,
        steps: before,
    } = prologue;
    let Made {
        stmts: turn,
        steps: turn_steps,
    } = body;
    let step = Step::While {
        prologue: Change { steps: before },
        before: Seq::new(alloc),
        test,
        body: Change { steps: turn_steps },
    };
    let steps = one_step(alloc, step)?;
    let kind = StmtKind::While {
        prologue,
        cond,
        body: Some(turn),
    };
    Ok(MadeKind { kind, steps })
}

/// A `for`. Unrolling leaves none.
pub(crate) fn made_for(
    alloc: Global,
    counter: &Var,
    from: &Expr,
    down: bool,
    to: &Expr,
    body: Made,
) -> Result<MadeKind, AllocError>
    ensures { let made_of = scalars.made_for counter.now from.now down to.now in
        IfOk result (λ made. made ≡ made_of body) }
{
    let counter = counter.copy(alloc)?;
    let from = with_scalars(alloc, from)?;
    let to = with_scalars(alloc, to)?;
    let Made {
        stmts: body,
        steps: round,
    } = body;
    let steps = one_step(alloc, Step::For(Change { steps: round }))?;
    let kind = StmtKind::For {
        counter,
        from,
        down,
        to,
        body,
    };
    Ok(MadeKind { kind, steps })
}

/// A mark unsets the cells of an array, which are its scalars.
pub(crate) fn made_mark(alloc: Global, vars: &Seq<Var>) -> Result<MadeKind, AllocError>
    ensures { IfOk result (λ made. made ≡ scalars.made_mark vars.now) }
{
    Ok(MadeKind {
        kind: StmtKind::Mark(copy_vars(alloc, vars)?),
        steps: Seq::new(alloc),
    })
}
