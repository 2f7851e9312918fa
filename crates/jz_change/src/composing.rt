//! Two changes one after another.

ghost use Rattle.std.specs.Prelude.{◌≡◌, ◌++◌, [], IfOk, OnOk, drop};
ghost use Rattle.jz_change.specs.declared.change.Step.{Step};
ghost use Rattle.jz_change.specs.Composing.{all_by, head_ops, first_ops, behind, join, join_every, compose_of, Composes};
ghost use Rattle.jz_change.specs.Views.{change_of, changes_of, steps_of};
ghost use Rattle.jz_change.specs.InnerSteps.{KeepsIf, KeepsWhile, GivesIf, GivesStepAt, steps_and};

use crate::change::{Change, Numbers, Step};
use crate::numbers::{numbers_by, push_all};
use jz_data::Seq;
use std::alloc::{AllocError, Global};

/// Adds what the step at a place makes of an operation with these numbers.
fn push_head(
    alloc: Global,
    out: &mut Vec<Numbers>,
    numbers: &Numbers,
    steps: &[Step],
    at: usize,
) -> Result<(), AllocError>
    ensures { OnOk result
        (out.new.items ≡ out.old.items ++ head_ops numbers.now (steps_of (drop at steps.now))) }
{
    match steps.get(at) {
        None => Ok(()),
        Some(step) => match step {
            Step::Ops(more) => push_all(alloc, out, numbers, more),
            _ => Ok(()),
        },
    }
}

/// The place behind a step, where there is one.
fn next(steps: &[Step], at: usize) -> usize
    ensures { steps_of (drop result steps.now) ≡ behind (steps_of (drop at steps.now)) }
{
    if at < steps.len() { at + 1 } else { at }
}

/// Adds what the steps from a place on make of so many operations, and says where the steps behind
/// them begin.
fn take(
    alloc: Global,
    out: &mut Vec<Numbers>,
    before: &Seq<Numbers>,
    steps: &[Step],
    at: usize,
) -> Result<usize, AllocError>
    ensures items { IfOk result (λ to. out.new.items
        ≡ out.old.items ++ (first_ops before.now (steps_of (drop at steps.now))).items) }
    ensures rest { IfOk result (λ to.
        (first_ops before.now (steps_of (drop at steps.now))).rest ≡ steps_of (drop to steps.now)) }
{
    let mut to = at;
    for numbers in before.as_slice() {
        push_head(alloc, out, numbers, steps, to)?;
        to = next(steps, to);
    }
    Ok(to)
}

/// Steps, and the place behind those that they were made of.
#[derive(Drop)]
struct Part {
    steps: Seq<Step>,
    at: usize,
}

/// The same of one step.
#[derive(Drop)]
struct One {
    step: Step,
    at: usize,
}

/// Where the steps are of another kind.
fn nothing(alloc: Global, at: usize) -> One
    ensures step { result.step ≡ Step.Ops [] }
    ensures at { result.at ≡ at }
{
    One {
        step: Step::Ops(Seq::new(alloc)),
        at,
    }
}

/// The steps of a change, one after another.
#[cycle(compose)]
fn compose_steps(alloc: Global, a: &Change, steps: &[Step], at: usize) -> Result<Part, AllocError>
    ensures { IfOk result (λ p. join (change_of a.now) (steps_of (drop at steps.now))
        ≡ steps_and p.steps (steps_of (drop p.at steps.now))) }
{
    let mut out = Vec::with_capacity(alloc, a.steps.len())?;
    let mut now = at;
    for step in a.steps.as_slice() {
        let one = compose_step(alloc, step, steps, now)?;
        out.push(one.step)?;
        now = one.at;
    }
    Ok(Part {
        steps: Seq::from_vec(out),
        at: now,
    })
}

/// A change and the steps of another one.
#[cycle(compose)]
fn compose_change(alloc: Global, a: &Change, steps: &[Step]) -> Result<Change, AllocError>
    ensures { IfOk result (λ c. change_of c
        ≡ (join (change_of a.now) (steps_of steps.now)).change) }
{
    let part = compose_steps(alloc, a, steps, 0)?;
    Ok(Change { steps: part.steps })
}

/// One step.
#[cycle(compose)]
fn compose_step(alloc: Global, step: &Step, steps: &[Step], at: usize) -> Result<One, AllocError>
    ensures { IfOk result (λ o. GivesStepAt step.now steps.now at o.step o.at) }
{
    match step {
        Step::Ops(items) => compose_ops(alloc, items, steps, at),
        Step::If { .. } => compose_if(alloc, step, steps, at),
        Step::Arm {
            answer,
            before,
            part,
        } => compose_arm(alloc, *answer, before, part, steps, at),
        Step::While { .. } => compose_while(alloc, step, steps, at),
        Step::Once { prologue, before } => compose_once(alloc, prologue, before, steps, at),
        Step::For(body) => compose_for(alloc, body, steps, at),
        Step::Unrolled(parts) => compose_unrolled(alloc, parts, steps, at),
        Step::Opened {
            arguments,
            body,
            results,
        } => compose_opened(alloc, arguments, body, results, steps, at),
    }
}

/// An operation that becomes so many.
fn compose_ops(
    alloc: Global,
    items: &Seq<Numbers>,
    steps: &[Step],
    at: usize,
) -> Result<One, AllocError>
    ensures { IfOk result (λ o. GivesStepAt (Step.Ops items.now) steps.now at o.step o.at) }
{
    let mut out = Vec::new(alloc);
    let to = take(alloc, &mut out, items, steps, at)?;
    Ok(One {
        step: Step::Ops(Seq::from_vec(out)),
        at: to,
    })
}

/// An `if` that stays: the other change keeps it or leaves one of its arms.
#[cycle(compose)]
fn compose_if(alloc: Global, step: &Step, steps: &[Step], at: usize) -> Result<One, AllocError>
    ensures { IfOk result (λ o. KeepsIf step.now → GivesStepAt step.now steps.now at o.step o.at) }
{
    let Step::If {
        before,
        test,
        then_part,
        else_part,
    } = step
    else {
        return Ok(nothing(alloc, at));
    };
    let mut out = Vec::new(alloc);
    let to = take(alloc, &mut out, before, steps, at)?;
    let to_next = next(steps, to);
    match steps.get(to) {
        None => Ok(nothing(alloc, to_next)),
        Some(second) => match second {
            Step::If { .. } => {
                let both = compose_both(alloc, step, second, out, to_next)?;
                Ok(both)
            }
            Step::Arm {
                answer,
                before: more,
                part,
            } => {
                push_all(alloc, &mut out, test, more)?;
                if *answer {
                    let left = compose_change(alloc, then_part, part.steps.as_slice())?;
                    Ok(arm_of(true, out, left, to_next))
                } else {
                    let left = compose_change(alloc, else_part, part.steps.as_slice())?;
                    Ok(arm_of(false, out, left, to_next))
                }
            }
            _ => Ok(nothing(alloc, to_next)),
        },
    }
}

/// An `if` that both changes keep, where these are the operations of the first one.
#[cycle(compose)]
fn compose_both(
    alloc: Global,
    step: &Step,
    second: &Step,
    before: Vec<Numbers>,
    at: usize,
) -> Result<One, AllocError>
    ensures step { IfOk result (λ o. KeepsIf step.now → KeepsIf second.now
        → GivesIf step.now before.items second.now o.step) }
    ensures at { IfOk result (λ o. o.at ≡ at) }
{
    let Step::If {
        before: _,
        test,
        then_part,
        else_part,
    } = step
    else {
        return Ok(nothing(alloc, at));
    };
    let mut out = before;
    match second {
        Step::If {
            before: more,
            test: numbers,
            then_part: then_steps,
            else_part: else_steps,
        } => {
            push_all(alloc, &mut out, test, more)?;
            let both = numbers_by(alloc, test, numbers)?;
            let then_left = compose_change(alloc, then_part, then_steps.steps.as_slice())?;
            let else_left = compose_change(alloc, else_part, else_steps.steps.as_slice())?;
            Ok(One {
                step: Step::If {
                    before: Seq::from_vec(out),
                    test: both,
                    then_part: then_left,
                    else_part: else_left,
                },
                at,
            })
        }
        _ => Ok(nothing(alloc, at)),
    }
}

/// The arm of an answer.
fn arm_of(answer: bool, before: Vec<Numbers>, part: Change, at: usize) -> One
    ensures step { result.step ≡ Step.Arm answer before.items part }
    ensures at { result.at ≡ at }
{
    One {
        step: Step::Arm {
            answer,
            before: Seq::from_vec(before),
            part,
        },
        at,
    }
}

/// An `if` of which an arm is left.
#[cycle(compose)]
fn compose_arm(
    alloc: Global,
    answer: bool,
    before: &Seq<Numbers>,
    part: &Change,
    steps: &[Step],
    at: usize,
) -> Result<One, AllocError>
    ensures { IfOk result (λ o. GivesStepAt
        (Step.Arm answer before.now part.now) steps.now at o.step o.at) }
{
    let mut out = Vec::new(alloc);
    let to = take(alloc, &mut out, before, steps, at)?;
    let left = compose_steps(alloc, part, steps, to)?;
    Ok(One {
        step: Step::Arm {
            answer,
            before: Seq::from_vec(out),
            part: Change { steps: left.steps },
        },
        at: left.at,
    })
}

/// A `while` that stays: the other change keeps it or leaves its prologue.
#[cycle(compose)]
fn compose_while(alloc: Global, step: &Step, steps: &[Step], at: usize) -> Result<One, AllocError>
    ensures { IfOk result (λ o. KeepsWhile step.now
        → GivesStepAt step.now steps.now at o.step o.at) }
{
    let Step::While {
        prologue,
        before,
        test,
        body,
    } = step
    else {
        return Ok(nothing(alloc, at));
    };
    let to_next = next(steps, at);
    match steps.get(at) {
        None => Ok(nothing(alloc, to_next)),
        Some(second) => match second {
            Step::While {
                prologue: inner,
                before: more,
                test: numbers,
                body: body_steps,
            } => {
                let part = compose_steps(alloc, prologue, inner.steps.as_slice(), 0)?;
                let out = behind_prologue(alloc, before, test, more, inner, part.at)?;
                let both = numbers_by(alloc, test, numbers)?;
                let left = compose_change(alloc, body, body_steps.steps.as_slice())?;
                Ok(while_of(Change { steps: part.steps }, out, both, left, to_next))
            }
            Step::Once {
                prologue: inner,
                before: more,
            } => {
                let part = compose_steps(alloc, prologue, inner.steps.as_slice(), 0)?;
                let out = behind_prologue(alloc, before, test, more, inner, part.at)?;
                Ok(once_of(Change { steps: part.steps }, out, to_next))
            }
            _ => Ok(nothing(alloc, to_next)),
        },
    }
}

/// The `while` that both changes keep.
fn while_of(prologue: Change, before: Seq<Numbers>, test: Numbers, body: Change, at: usize) -> One
    ensures step { result.step ≡ Step.While prologue before test body }
    ensures at { result.at ≡ at }
{
    One {
        step: Step::While {
            prologue,
            before,
            test,
            body,
        },
        at,
    }
}

/// The prologue of a `while`, and the operations behind it.
fn once_of(prologue: Change, before: Seq<Numbers>, at: usize) -> One
    ensures step { result.step ≡ Step.Once prologue before }
    ensures at { result.at ≡ at }
{
    One {
        step: Step::Once { prologue, before },
        at,
    }
}

/// What stands behind a prologue: operations of the first change, then those of the other one.
fn behind_prologue(
    alloc: Global,
    before: &Seq<Numbers>,
    test: &Numbers,
    more: &Seq<Numbers>,
    inner: &Change,
    at: usize,
) -> Result<Seq<Numbers>, AllocError>
    ensures { IfOk result (λ out. out
        ≡ (first_ops before.now (steps_of (drop at inner.now.steps))).items
        ++ all_by test.now more.now) }
{
    let mut out = Vec::new(alloc);
    let _behind = take(alloc, &mut out, before, inner.steps.as_slice(), at)?;
    push_all(alloc, &mut out, test, more)?;
    Ok(Seq::from_vec(out))
}

/// A `while` of which the prologue is left.
#[cycle(compose)]
fn compose_once(
    alloc: Global,
    prologue: &Change,
    before: &Seq<Numbers>,
    steps: &[Step],
    at: usize,
) -> Result<One, AllocError>
    ensures { IfOk result (λ o. GivesStepAt
        (Step.Once prologue.now before.now) steps.now at o.step o.at) }
{
    let part = compose_steps(alloc, prologue, steps, at)?;
    let mut out = Vec::new(alloc);
    let to = take(alloc, &mut out, before, steps, part.at)?;
    Ok(One {
        step: Step::Once {
            prologue: Change { steps: part.steps },
            before: Seq::from_vec(out),
        },
        at: to,
    })
}

/// A `for` that stays: the other change keeps it or sets its rounds one after another.
#[cycle(compose)]
fn compose_for(alloc: Global, body: &Change, steps: &[Step], at: usize) -> Result<One, AllocError>
    ensures { IfOk result (λ o. GivesStepAt (Step.For body.now) steps.now at o.step o.at) }
{
    let to_next = next(steps, at);
    match steps.get(at) {
        None => Ok(nothing(alloc, to_next)),
        Some(second) => match second {
            Step::For(inner) => {
                let left = compose_change(alloc, body, inner.steps.as_slice())?;
                Ok(One {
                    step: Step::For(left),
                    at: to_next,
                })
            }
            Step::Unrolled(rounds) => {
                let parts = compose_every(alloc, body, rounds.as_slice())?;
                Ok(One {
                    step: Step::Unrolled(parts),
                    at: to_next,
                })
            }
            _ => Ok(nothing(alloc, to_next)),
        },
    }
}

/// One change for all rounds, and then one for each of them.
#[cycle(compose)]
fn compose_every(alloc: Global, body: &Change, parts: &[Change]) -> Result<Seq<Change>, AllocError>
    ensures { IfOk result (λ all. changes_of all
        ≡ join_every (join (change_of body.now)) (changes_of parts.now)) }
{
    let mut all = Vec::with_capacity(alloc, parts.len())?;
    for part in parts {
        let made = compose_change(alloc, body, part.steps.as_slice())?;
        all.push(made)?;
    }
    Ok(Seq::from_vec(all))
}

/// The rounds of a `for`, one after another.
#[cycle(compose)]
fn compose_unrolled(
    alloc: Global,
    parts: &Seq<Change>,
    steps: &[Step],
    at: usize,
) -> Result<One, AllocError>
    ensures { IfOk result (λ o. GivesStepAt (Step.Unrolled parts.now) steps.now at o.step o.at) }
{
    let mut all = Vec::with_capacity(alloc, parts.len())?;
    let mut now = at;
    for part in parts.as_slice() {
        let made = compose_steps(alloc, part, steps, now)?;
        all.push(Change { steps: made.steps })?;
        now = made.at;
    }
    Ok(One {
        step: Step::Unrolled(Seq::from_vec(all)),
        at: now,
    })
}

/// A call.
#[cycle(compose)]
fn compose_opened(
    alloc: Global,
    arguments: &Seq<Numbers>,
    body: &Change,
    results: &Seq<Numbers>,
    steps: &[Step],
    at: usize,
) -> Result<One, AllocError>
    ensures { IfOk result (λ o. GivesStepAt
        (Step.Opened arguments.now body.now results.now) steps.now at o.step o.at) }
{
    let mut first = Vec::new(alloc);
    let from = take(alloc, &mut first, arguments, steps, at)?;
    let part = compose_steps(alloc, body, steps, from)?;
    let mut last = Vec::new(alloc);
    let to = take(alloc, &mut last, results, steps, part.at)?;
    Ok(One {
        step: Step::Opened {
            arguments: Seq::from_vec(first),
            body: Change { steps: part.steps },
            results: Seq::from_vec(last),
        },
        at: to,
    })
}

/// What two passes make of a leak, `a` first. The recursion is as deep as `a`, which is bounded by
/// the nesting of the text.
pub fn compose(alloc: Global, a: Change, b: Change) -> Result<Change, AllocError>
    ensures is { IfOk result (λ c. change_of c ≡ compose_of (change_of a) (change_of b)) }
    ensures law { IfOk result (λ c. Composes (change_of a) (change_of b) (change_of c)) }
{
    let change = compose_change(alloc, &a, b.steps.as_slice())?;
    Ok(change)
}
