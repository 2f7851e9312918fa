//! The printed transformer of a change and of the last pass behind it.

ghost use Rattle.std.specs.Prelude.{◌≡◌, ◌++◌, [], IfOk, OnOk, map, drop};
ghost use Rattle.jz_words.specs.declared.size.Size.TheVariants.{S64};
ghost use Rattle.jz_words.specs.Sizes.{signed};
ghost use Rattle.jz_leak.specs.declared.transformer.Case.{Case};
ghost use Rattle.jz_leak.specs.declared.transformer.Case.TheViews.{roll-Case};
ghost use Rattle.jz_change.specs.declared.change.Step.{Step};
ghost use Rattle.jz_change.specs.Flattening.{indexed_form, form_by, out_by, outs_by, head_outs, cases_behind, first_outs, tr_of, flat_arm, flat, flatten_of, Flattens};
ghost use Rattle.jz_change.specs.Views.{change_of};
ghost use Rattle.jz_change.specs.InnerSteps.{KeepsIf, KeepsWhile, GivesCaseAt, cases_and};

use crate::change::{Change, Number, Numbers, Step};
use crate::numbers::{make_room, number_at};
use jz_data::Seq;
use jz_leak::{Case, Form, Out, Tr, Transformer};
use std::alloc::{AllocError, Global};

/// A word as a signed number.
#[tactic(auto, unfolding(jz_words::specs::Sizes::signed))]
fn signed_of(word: u64) -> i64
    ensures { result ≡ signed S64 word }
{
    if word < 1 << 63 {
        word as i64
    } else {
        (i128::from(word) - (1i128 << 64)) as i64
    }
}

/// A scaled number: one that is known moves the offset.
fn indexed_form(offset: i64, factor: u64, number: Number) -> Form
    ensures { result ≡ indexed_form offset factor number }
{
    match number {
        Number::Fixed(n) => {
            let scaled = factor.wrapping_mul(n);
            Form::Frame(signed_of(scaled.wrapping_add_signed(offset)))
        }
        Number::Nth(i) => Form::Indexed(offset, factor, i),
    }
}

/// A form by the numbers of an item that has these.
fn form_by(numbers: &[Number], form: Form) -> Form
    ensures { result ≡ form_by numbers.now form }
{
    match form {
        Form::Num(n) => Form::Num(n),
        Form::Leaked(place) => match number_at(numbers, place) {
            Number::Fixed(n) => Form::Num(n),
            Number::Nth(i) => Form::Leaked(i),
        },
        Form::Frame(offset) => Form::Frame(offset),
        Form::Indexed(offset, factor, place) => indexed_form(
            offset,
            factor,
            number_at(numbers, place),
        ),
    }
}

/// An event by the same.
fn out_by(numbers: &[Number], out: Out) -> Out
    ensures { result ≡ out_by numbers.now out }
{
    match out {
        Out::Branch(taken) => Out::Branch(taken),
        Out::Addr(address) => Out::Addr(form_by(numbers, address)),
        Out::Div(high, low, divisor) => Out::Div(
            form_by(numbers, high),
            form_by(numbers, low),
            form_by(numbers, divisor),
        ),
    }
}

/// Adds events, each by the numbers of an item.
fn push_outs(outs: &mut Vec<Out>, numbers: &Numbers, more: &Seq<Out>) -> Result<(), AllocError>
    ensures { OnOk result (outs.new.items ≡ outs.old.items ++ outs_by numbers.now more.now) }
{
    make_room(outs, more.len())?;
    match numbers {
        Numbers::Same => {
            for out in more.as_slice() {
                outs.push(*out)?;
            }
            Ok(())
        }
        Numbers::These(these) => {
            for one in more.as_slice() {
                outs.push(out_by(these.as_slice(), *one))?;
            }
            Ok(())
        }
    }
}

/// Adds the events of the case at a place, if it is one of an operation.
fn push_case(
    outs: &mut Vec<Out>,
    numbers: &Numbers,
    cases: &[Case],
    at: usize,
) -> Result<(), AllocError>
    ensures { OnOk result
        (outs.new.items ≡ outs.old.items ++ head_outs numbers.now (drop at cases.now)) }
{
    match cases.get(at) {
        None => Ok(()),
        Some(case) => match case {
            Case::Op(more) => push_outs(outs, numbers, more),
            _ => Ok(()),
        },
    }
}

/// The place behind a case, where there is one.
fn next(cases: &[Case], at: usize) -> usize
    ensures { drop result cases.now ≡ cases_behind (drop at cases.now) }
{
    if at < cases.len() { at + 1 } else { at }
}

/// Takes the cases of so many operations, adds their events, and says where the cases behind them
/// begin.
fn take(
    outs: &mut Vec<Out>,
    items: &Seq<Numbers>,
    cases: &[Case],
    at: usize,
) -> Result<usize, AllocError>
    ensures outs { IfOk result (λ to. outs.new.items
        ≡ outs.old.items ++ (first_outs items.now (drop at cases.now)).outs) }
    ensures rest { IfOk result (λ to.
        (first_outs items.now (drop at cases.now)).rest ≡ drop to cases.now) }
{
    let mut to = at;
    for numbers in items.as_slice() {
        push_case(outs, numbers, cases, to)?;
        to = next(cases, to);
    }
    Ok(to)
}

/// Events by the numbers of an item.
fn outs_by_numbers(
    alloc: Global,
    numbers: &Numbers,
    more: &Seq<Out>,
) -> Result<Seq<Out>, AllocError>
    ensures { IfOk result (λ outs. outs ≡ outs_by numbers.now more.now) }
{
    let mut outs = Vec::new(alloc);
    push_outs(&mut outs, numbers, more)?;
    Ok(Seq::from_vec(outs))
}

/// Cases, and the place behind those that they were made of.
#[derive(Drop)]
struct Part {
    cases: Seq<Case>,
    at: usize,
}

/// The same of one case.
#[derive(Drop)]
struct One {
    case: Case,
    at: usize,
}

/// Where the cases are of another kind.
fn nothing(alloc: Global, at: usize) -> One
    ensures case { result.case ≡ Case.Op [] }
    ensures at { result.at ≡ at }
{
    One {
        case: Case::Op(Seq::new(alloc)),
        at,
    }
}

/// The steps of a change, one after another.
#[cycle(flat)]
fn flat_steps(alloc: Global, a: &Change, cases: &[Case], at: usize) -> Result<Part, AllocError>
    ensures { IfOk result (λ p. flat (change_of a.now) (drop at cases.now)
        ≡ cases_and p.cases (drop p.at cases.now)) }
{
    let mut out = Vec::with_capacity(alloc, a.steps.len())?;
    let mut now = at;
    for step in a.steps.as_slice() {
        let one = flat_step(alloc, step, cases, now)?;
        out.push(one.case)?;
        now = one.at;
    }
    Ok(Part {
        cases: Seq::from_vec(out),
        at: now,
    })
}

/// A change and a tree of its own.
#[cycle(flat)]
fn flat_tr(alloc: Global, a: &Change, tr: &Tr) -> Result<Tr, AllocError>
    ensures { IfOk result (λ t. t ≡ tr_of (flat (change_of a.now) tr.now.cases).cases) }
{
    let part = flat_steps(alloc, a, tr.cases.as_slice(), 0)?;
    Ok(Tr { cases: part.cases })
}

/// One step.
#[cycle(flat)]
fn flat_step(alloc: Global, step: &Step, cases: &[Case], at: usize) -> Result<One, AllocError>
    ensures { IfOk result (λ o. GivesCaseAt step.now cases.now at o.case o.at) }
{
    match step {
        Step::Ops(items) => flat_ops(alloc, items, cases, at),
        Step::If { .. } => flat_if(alloc, step, cases, at),
        Step::Arm {
            answer,
            before,
            part,
        } => flat_arm(alloc, *answer, before, part, cases, at),
        Step::While { .. } => flat_while(alloc, step, cases, at),
        Step::Once { prologue, before } => flat_once(alloc, prologue, before, cases, at),
        Step::For(body) => flat_for(alloc, body, cases, at),
        Step::Unrolled(parts) => flat_unrolled(alloc, parts, cases, at),
        Step::Opened {
            arguments,
            body,
            results,
        } => flat_opened(alloc, arguments, body, results, cases, at),
    }
}

/// An operation that becomes so many.
fn flat_ops(
    alloc: Global,
    items: &Seq<Numbers>,
    cases: &[Case],
    at: usize,
) -> Result<One, AllocError>
    ensures { IfOk result (λ o. GivesCaseAt (Step.Ops items.now) cases.now at o.case o.at) }
{
    let mut outs = Vec::new(alloc);
    let to = take(&mut outs, items, cases, at)?;
    Ok(One {
        case: Case::Op(Seq::from_vec(outs)),
        at: to,
    })
}

/// An `if` that stays.
#[cycle(flat)]
fn flat_if(alloc: Global, step: &Step, cases: &[Case], at: usize) -> Result<One, AllocError>
    ensures { IfOk result (λ o. KeepsIf step.now → GivesCaseAt step.now cases.now at o.case o.at) }
{
    let Step::If {
        before,
        test,
        then_part,
        else_part,
    } = step
    else {
        return Ok(nothing(alloc, at));
    };
    let mut outs = Vec::new(alloc);
    let to = take(&mut outs, before, cases, at)?;
    let to_next = next(cases, to);
    match cases.get(to) {
        None => Ok(nothing(alloc, to_next)),
        Some(case) => match case {
            Case::If {
                test: test_outs,
                then_outs,
                then_tr,
                else_outs,
                else_tr,
            } => {
                push_outs(&mut outs, test, test_outs)?;
                let then_shown = outs_by_numbers(alloc, test, then_outs)?;
                let else_shown = outs_by_numbers(alloc, test, else_outs)?;
                let then_left = flat_tr(alloc, then_part, then_tr)?;
                let else_left = flat_tr(alloc, else_part, else_tr)?;
                Ok(if_of(outs, then_shown, then_left, else_shown, else_left, to_next))
            }
            _ => Ok(nothing(alloc, to_next)),
        },
    }
}

/// The case of an `if` that stays.
fn if_of(
    test: Vec<Out>,
    then_outs: Seq<Out>,
    then_tr: Tr,
    else_outs: Seq<Out>,
    else_tr: Tr,
    at: usize,
) -> One
    ensures case { result.case ≡ Case.If test.items then_outs then_tr else_outs else_tr }
    ensures at { result.at ≡ at }
{
    One {
        case: Case::If {
            test: Seq::from_vec(test),
            then_outs,
            then_tr,
            else_outs,
            else_tr,
        },
        at,
    }
}

/// An `if` of which an arm is left.
#[cycle(flat)]
fn flat_arm(
    alloc: Global,
    answer: bool,
    before: &Seq<Numbers>,
    part: &Change,
    cases: &[Case],
    at: usize,
) -> Result<One, AllocError>
    ensures { IfOk result (λ o. GivesCaseAt
        (Step.Arm answer before.now part.now) cases.now at o.case o.at) }
{
    let mut outs = Vec::new(alloc);
    let to = take(&mut outs, before, cases, at)?;
    let left = flat_steps(alloc, part, cases, to)?;
    Ok(One {
        case: pruned(alloc, answer, outs, left.cases),
        at: left.at,
    })
}

/// The case of an `if` of which an arm is left.
fn pruned(alloc: Global, answer: bool, outs: Vec<Out>, cases: Seq<Case>) -> Case
    ensures { result ≡ roll-Case (flat_arm answer outs.items cases) }
{
    let left = Tr { cases };
    let empty = Tr {
        cases: Seq::new(alloc),
    };
    if answer {
        Case::If {
            test: Seq::from_vec(outs),
            then_outs: Seq::new(alloc),
            then_tr: left,
            else_outs: Seq::new(alloc),
            else_tr: empty,
        }
    } else {
        Case::If {
            test: Seq::from_vec(outs),
            then_outs: Seq::new(alloc),
            then_tr: empty,
            else_outs: Seq::new(alloc),
            else_tr: left,
        }
    }
}

/// A `while` that stays.
#[cycle(flat)]
fn flat_while(alloc: Global, step: &Step, cases: &[Case], at: usize) -> Result<One, AllocError>
    ensures { IfOk result (λ o. KeepsWhile step.now
        → GivesCaseAt step.now cases.now at o.case o.at) }
{
    let Step::While {
        prologue,
        before,
        test,
        body,
    } = step
    else {
        return Ok(nothing(alloc, at));
    };
    let to_next = next(cases, at);
    match cases.get(at) {
        None => Ok(nothing(alloc, to_next)),
        Some(case) => match case {
            Case::While {
                prologue: inner,
                test: test_outs,
                more_outs,
                body: body_tr,
                leave_outs,
            } => {
                let part = flat_steps(alloc, prologue, inner.cases.as_slice(), 0)?;
                let outs = behind_prologue(alloc, before, test, test_outs, inner, part.at)?;
                let more_shown = outs_by_numbers(alloc, test, more_outs)?;
                let leave_shown = outs_by_numbers(alloc, test, leave_outs)?;
                let left = flat_tr(alloc, body, body_tr)?;
                let first = Tr { cases: part.cases };
                Ok(while_of(first, outs, more_shown, left, leave_shown, to_next))
            }
            _ => Ok(nothing(alloc, to_next)),
        },
    }
}

/// The case of a `while` that stays.
fn while_of(
    prologue: Tr,
    test: Seq<Out>,
    more_outs: Seq<Out>,
    body: Tr,
    leave_outs: Seq<Out>,
    at: usize,
) -> One
    ensures case { result.case ≡ Case.While prologue test more_outs body leave_outs }
    ensures at { result.at ≡ at }
{
    One {
        case: Case::While {
            prologue,
            test,
            more_outs,
            body,
            leave_outs,
        },
        at,
    }
}

/// What stands behind a prologue: the events of operations, then those of the condition.
fn behind_prologue(
    alloc: Global,
    before: &Seq<Numbers>,
    test: &Numbers,
    test_outs: &Seq<Out>,
    inner: &Tr,
    at: usize,
) -> Result<Seq<Out>, AllocError>
    ensures { IfOk result (λ outs. outs
        ≡ (first_outs before.now (drop at inner.now.cases)).outs
        ++ outs_by test.now test_outs.now) }
{
    let mut outs = Vec::new(alloc);
    let _behind = take(&mut outs, before, inner.cases.as_slice(), at)?;
    push_outs(&mut outs, test, test_outs)?;
    Ok(Seq::from_vec(outs))
}

/// A `while` of which the prologue is left.
#[cycle(flat)]
fn flat_once(
    alloc: Global,
    prologue: &Change,
    before: &Seq<Numbers>,
    cases: &[Case],
    at: usize,
) -> Result<One, AllocError>
    ensures { IfOk result (λ o. GivesCaseAt
        (Step.Once prologue.now before.now) cases.now at o.case o.at) }
{
    let part = flat_steps(alloc, prologue, cases, at)?;
    let mut outs = Vec::new(alloc);
    let to = take(&mut outs, before, cases, part.at)?;
    Ok(One {
        case: Case::While {
            prologue: Tr { cases: part.cases },
            test: Seq::from_vec(outs),
            more_outs: Seq::new(alloc),
            body: Tr {
                cases: Seq::new(alloc),
            },
            leave_outs: Seq::new(alloc),
        },
        at: to,
    })
}

/// A `for` that stays: a tree for each round.
#[cycle(flat)]
fn flat_for(alloc: Global, body: &Change, cases: &[Case], at: usize) -> Result<One, AllocError>
    ensures { IfOk result (λ o. GivesCaseAt (Step.For body.now) cases.now at o.case o.at) }
{
    let to_next = next(cases, at);
    match cases.get(at) {
        None => Ok(nothing(alloc, to_next)),
        Some(case) => match case {
            Case::For(trs) => {
                let left = flat_trees(alloc, body, trs)?;
                Ok(One {
                    case: Case::For(left),
                    at: to_next,
                })
            }
            _ => Ok(nothing(alloc, to_next)),
        },
    }
}

/// One change and each of these trees.
#[cycle(flat)]
fn flat_trees(alloc: Global, body: &Change, trs: &Seq<Tr>) -> Result<Seq<Tr>, AllocError>
    ensures { IfOk result (λ out. out
        ≡ map (λ t. tr_of (flat (change_of body.now) t.cases).cases) trs.now) }
{
    let mut out = Vec::with_capacity(alloc, trs.len())?;
    for tr in trs.as_slice() {
        let made = flat_tr(alloc, body, tr)?;
        out.push(made)?;
    }
    Ok(Seq::from_vec(out))
}

/// The rounds of a `for`, one after another.
#[cycle(flat)]
fn flat_unrolled(
    alloc: Global,
    parts: &Seq<Change>,
    cases: &[Case],
    at: usize,
) -> Result<One, AllocError>
    ensures { IfOk result (λ o. GivesCaseAt (Step.Unrolled parts.now) cases.now at o.case o.at) }
{
    let mut trs = Vec::with_capacity(alloc, parts.len())?;
    let mut now = at;
    for part in parts.as_slice() {
        let made = flat_steps(alloc, part, cases, now)?;
        trs.push(Tr { cases: made.cases })?;
        now = made.at;
    }
    Ok(One {
        case: Case::For(Seq::from_vec(trs)),
        at: now,
    })
}

/// A call.
#[cycle(flat)]
fn flat_opened(
    alloc: Global,
    arguments: &Seq<Numbers>,
    body: &Change,
    results: &Seq<Numbers>,
    cases: &[Case],
    at: usize,
) -> Result<One, AllocError>
    ensures { IfOk result (λ o. GivesCaseAt
        (Step.Opened arguments.now body.now results.now) cases.now at o.case o.at) }
{
    let mut first = Vec::new(alloc);
    let from = take(&mut first, arguments, cases, at)?;
    let part = flat_steps(alloc, body, cases, from)?;
    let mut last = Vec::new(alloc);
    let to = take(&mut last, results, cases, part.at)?;
    Ok(One {
        case: Case::Call {
            arguments: Seq::from_vec(first),
            body: Tr { cases: part.cases },
            results: Seq::from_vec(last),
        },
        at: to,
    })
}

/// The printed transformer of a function: what a change makes of its leaks, and then the last
/// transformer shows. A `for` that stays gets a tree for each round, as the last one has. The
/// recursion is as deep as the change, which is bounded by the nesting of the text.
pub fn flatten(alloc: Global, a: Change, last: Transformer) -> Result<Transformer, AllocError>
    ensures is { IfOk result (λ t. t ≡ flatten_of (change_of a) last) }
    ensures law { IfOk result (λ t. Flattens (change_of a) last t) }
{
    let body = flat_tr(alloc, &a, &last.body)?;
    let Transformer { before, after, .. } = last;
    Ok(Transformer {
        before,
        body,
        after,
    })
}
