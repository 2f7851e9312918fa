//! Transformers, read by a loop over what is open, whatever is nested in what.

ghost use Rattle.std.specs.Prelude.{◌≡◌, ◌++◌, ◌∷◌, [], IfOk};
ghost use Rattle.jz_listing_lines.specs.InnerReaders.{Gave};
ghost use Rattle.jz_listing_lines.specs.InnerTrees.{GaveTransformer, GaveTree, a_case};
ghost use Rattle.jz_listing_lines.specs.InnerTrees.{call_case, close, close_body, close_callee};
ghost use Rattle.jz_listing_lines.specs.InnerTrees.{close_else, close_in, close_prologue};
ghost use Rattle.jz_listing_lines.specs.InnerTrees.{close_round, close_then, for_case, if_case};
ghost use Rattle.jz_listing_lines.specs.InnerTrees.{in_case, next_case, one_step, op_case};
ghost use Rattle.jz_listing_lines.specs.InnerTrees.{while_case, with_case};

use crate::cursor::{Cursor, Stop};
use crate::events::outs;
use crate::frames::{Level, Open, Pending, Step};
use jz_leak::{Case, Out, Seq, Tr, Transformer};
use std::alloc::{AllocError, Global};

/// What is open behind a case that has been read.
fn with_case(levels: Seq<Level>, cases: Seq<Case>, case: Case) -> Result<Open, AllocError>
    ensures { IfOk result (λ opened. opened ≡ with_case levels cases case) }
{
    let mut cases = cases;
    cases.push(case)?;
    Ok(Open { levels, cases })
}

/// What is open where a tree begins in a case.
fn in_case(
    alloc: Global,
    levels: Seq<Level>,
    cases: Seq<Case>,
    pending: Pending,
) -> Result<Open, AllocError>
    ensures { IfOk result (λ opened. opened ≡ in_case levels cases pending) }
{
    let mut levels = levels;
    levels.push(Level { cases, pending })?;
    Ok(Open {
        levels,
        cases: Seq::new(alloc),
    })
}

#[tactic(auto, unfolding(crate::specs::InnerTrees::op_case))]
fn op_case(
    alloc: Global,
    c: &mut Cursor,
    levels: Seq<Level>,
    cases: Seq<Case>,
) -> Result<Open, Stop>
    ensures { Gave result c.new (op_case levels cases c.old) }
{
    let outs = outs(alloc, c)?;
    Ok(with_case(levels, cases, Case::Op(outs))?)
}

#[tactic(auto, unfolding(crate::specs::InnerTrees::if_case))]
fn if_case(
    alloc: Global,
    c: &mut Cursor,
    levels: Seq<Level>,
    cases: Seq<Case>,
) -> Result<Open, Stop>
    ensures { Gave result c.new (if_case levels cases c.old) }
{
    let test = outs(alloc, c)?;
    c.literal(" ")?;
    let then_outs = outs(alloc, c)?;
    c.literal(" {")?;
    let pending = Pending::Then { test, then_outs };
    Ok(in_case(alloc, levels, cases, pending)?)
}

#[tactic(auto, unfolding(crate::specs::InnerTrees::while_case))]
fn while_case(
    alloc: Global,
    c: &mut Cursor,
    levels: Seq<Level>,
    cases: Seq<Case>,
) -> Result<Open, Stop>
    ensures { Gave result c.new (while_case levels cases c.old) }
{
    c.literal("{")?;
    Ok(in_case(alloc, levels, cases, Pending::Prologue)?)
}

#[tactic(auto, unfolding(crate::specs::InnerTrees::for_case))]
fn for_case(
    alloc: Global,
    c: &mut Cursor,
    levels: Seq<Level>,
    cases: Seq<Case>,
) -> Result<Open, Stop>
    ensures { Gave result c.new (for_case levels cases c.old) }
{
    if c.is_at(")") {
        c.literal(")")?;
        return Ok(with_case(levels, cases, Case::For(Seq::new(alloc)))?);
    }
    c.literal("{")?;
    let pending = Pending::Round(Seq::new(alloc));
    Ok(in_case(alloc, levels, cases, pending)?)
}

#[tactic(auto, unfolding(crate::specs::InnerTrees::call_case))]
fn call_case(
    alloc: Global,
    c: &mut Cursor,
    levels: Seq<Level>,
    cases: Seq<Case>,
) -> Result<Open, Stop>
    ensures { Gave result c.new (call_case levels cases c.old) }
{
    let arguments = outs(alloc, c)?;
    c.literal(" {")?;
    Ok(in_case(alloc, levels, cases, Pending::Callee(arguments))?)
}

/// A case, up to its first tree.
#[tactic(auto, unfolding(crate::specs::InnerTrees::a_case))]
fn a_case(alloc: Global, c: &mut Cursor, levels: Seq<Level>, cases: Seq<Case>) -> Result<Open, Stop>
    ensures { Gave result c.new (a_case levels cases c.old) }
{
    if c.is_at("op") {
        c.literal("op")?;
        return op_case(alloc, c, levels, cases);
    }
    if c.is_at("if(") {
        c.literal("if(")?;
        return if_case(alloc, c, levels, cases);
    }
    if c.is_at("while(") {
        c.literal("while(")?;
        return while_case(alloc, c, levels, cases);
    }
    if c.is_at("for(") {
        c.literal("for(")?;
        return for_case(alloc, c, levels, cases);
    }
    c.literal("call(")?;
    call_case(alloc, c, levels, cases)
}

/// A space where it is not the first, and a case.
#[tactic(auto, unfolding(crate::specs::InnerTrees::next_case))]
fn next_case(alloc: Global, c: &mut Cursor, opened: Open) -> Result<Open, Stop>
    ensures { Gave result c.new (next_case opened c.old) }
{
    let Open { levels, cases } = opened;
    if cases.is_empty() {
        return a_case(alloc, c, levels, cases);
    }
    c.literal(" ")?;
    a_case(alloc, c, levels, cases)
}

/// What stands behind the first arm of an `if`.
#[tactic(auto, unfolding(crate::specs::InnerTrees::close_then))]
fn close_then(
    alloc: Global,
    c: &mut Cursor,
    level: (Seq<Level>, Seq<Case>),
    test: Seq<Out>,
    then_outs: Seq<Out>,
    tr: Tr,
) -> Result<Open, Stop>
    ensures { Gave result c.new (close_then level.0 level.1 test then_outs tr c.old) }
{
    let (levels, cases) = level;
    c.literal(" ")?;
    let else_outs = outs(alloc, c)?;
    c.literal(" {")?;
    let pending = Pending::Else {
        test,
        then_outs,
        then_tr: tr,
        else_outs,
    };
    Ok(in_case(alloc, levels, cases, pending)?)
}

/// What stands behind the second arm of an `if`.
#[tactic(auto, unfolding(crate::specs::InnerTrees::close_else))]
fn close_else(
    c: &mut Cursor,
    level: (Seq<Level>, Seq<Case>),
    test: Seq<Out>,
    then_outs: Seq<Out>,
    then_tr: Tr,
    else_outs: Seq<Out>,
    tr: Tr,
) -> Result<Open, Stop>
    ensures { Gave result c.new
        (close_else level.0 level.1 test then_outs then_tr else_outs tr c.old) }
{
    let (levels, cases) = level;
    c.literal(")")?;
    let case = Case::If {
        test,
        then_outs,
        then_tr,
        else_outs,
        else_tr: tr,
    };
    Ok(with_case(levels, cases, case)?)
}

/// What stands behind the prologue of a `while`.
#[tactic(auto, unfolding(crate::specs::InnerTrees::close_prologue))]
fn close_prologue(
    alloc: Global,
    c: &mut Cursor,
    level: (Seq<Level>, Seq<Case>),
    tr: Tr,
) -> Result<Open, Stop>
    ensures { Gave result c.new (close_prologue level.0 level.1 tr c.old) }
{
    let (levels, cases) = level;
    c.literal(" ")?;
    let test = outs(alloc, c)?;
    c.literal(" ")?;
    let more_outs = outs(alloc, c)?;
    c.literal(" {")?;
    let pending = Pending::Body {
        prologue: tr,
        test,
        more_outs,
    };
    Ok(in_case(alloc, levels, cases, pending)?)
}

/// What stands behind the body of a `while`.
#[tactic(auto, unfolding(crate::specs::InnerTrees::close_body))]
fn close_body(
    alloc: Global,
    c: &mut Cursor,
    level: (Seq<Level>, Seq<Case>),
    prologue: Tr,
    test: Seq<Out>,
    more_outs: Seq<Out>,
    tr: Tr,
) -> Result<Open, Stop>
    ensures { Gave result c.new
        (close_body level.0 level.1 prologue test more_outs tr c.old) }
{
    let (levels, cases) = level;
    c.literal(" ")?;
    let leave_outs = outs(alloc, c)?;
    c.literal(")")?;
    let case = Case::While {
        prologue,
        test,
        more_outs,
        body: tr,
        leave_outs,
    };
    Ok(with_case(levels, cases, case)?)
}

/// What stands behind a round of a `for`.
#[tactic(auto, unfolding(crate::specs::InnerTrees::close_round))]
fn close_round(
    alloc: Global,
    c: &mut Cursor,
    level: (Seq<Level>, Seq<Case>),
    trs: Seq<Tr>,
) -> Result<Open, Stop>
    ensures { Gave result c.new (close_round level.0 level.1 trs c.old) }
{
    let (levels, cases) = level;
    if c.is_at(")") {
        c.literal(")")?;
        return Ok(with_case(levels, cases, Case::For(trs))?);
    }
    c.literal(" {")?;
    Ok(in_case(alloc, levels, cases, Pending::Round(trs))?)
}

/// What stands behind the body of a call.
#[tactic(auto, unfolding(crate::specs::InnerTrees::close_callee))]
fn close_callee(
    alloc: Global,
    c: &mut Cursor,
    level: (Seq<Level>, Seq<Case>),
    arguments: Seq<Out>,
    tr: Tr,
) -> Result<Open, Stop>
    ensures { Gave result c.new (close_callee level.0 level.1 arguments tr c.old) }
{
    let (levels, cases) = level;
    c.literal(" ")?;
    let results = outs(alloc, c)?;
    c.literal(")")?;
    let case = Case::Call {
        arguments,
        body: tr,
        results,
    };
    Ok(with_case(levels, cases, case)?)
}

/// One tree behind others.
fn with_tree(trs: Seq<Tr>, tr: Tr) -> Result<Seq<Tr>, AllocError>
    ensures { IfOk result (λ all. all ≡ trs ++ tr ∷ []) }
{
    let mut trs = trs;
    trs.push(tr)?;
    Ok(trs)
}

/// What stands behind a tree in its case.
fn close_in(
    alloc: Global,
    c: &mut Cursor,
    level: (Seq<Level>, Seq<Case>),
    pending: Pending,
    tr: Tr,
) -> Result<Open, Stop>
    ensures { Gave result c.new (close_in level.0 level.1 pending tr c.old) }
{
    match pending {
        Pending::Then { test, then_outs } => close_then(alloc, c, level, test, then_outs, tr),
        Pending::Else {
            test,
            then_outs,
            then_tr,
            else_outs,
        } => close_else(c, level, test, then_outs, then_tr, else_outs, tr),
        Pending::Prologue => close_prologue(alloc, c, level, tr),
        Pending::Body {
            prologue,
            test,
            more_outs,
        } => close_body(alloc, c, level, prologue, test, more_outs, tr),
        Pending::Round(trs) => {
            let trs = with_tree(trs, tr)?;
            close_round(alloc, c, level, trs)
        }
        Pending::Callee(arguments) => close_callee(alloc, c, level, arguments, tr),
    }
}

/// What is left where the innermost tree ends.
#[tactic(auto, unfolding(crate::specs::InnerTrees::close), using(crate::proofs::Levels::last_is))]
fn close(alloc: Global, c: &mut Cursor, opened: Open) -> Result<Step, Stop>
    ensures { Gave result c.new (close opened c.old) }
{
    let Open { mut levels, cases } = opened;
    let tr = Tr { cases };
    let Some(Level { cases, pending }) = levels.pop() else {
        return Ok(Step::Done(tr));
    };
    let opened = close_in(alloc, c, (levels, cases), pending, tr)?;
    Ok(Step::Going(opened))
}

/// The end of a tree, or the next case up to its first tree.
#[tactic(auto, unfolding(crate::specs::InnerTrees::one_step))]
fn one_step(alloc: Global, c: &mut Cursor, opened: Open) -> Result<Step, Stop>
    ensures { Gave result c.new (one_step opened c.old) }
{
    if c.is_at("}") {
        c.literal("}")?;
        return close(alloc, c, opened);
    }
    let opened = next_case(alloc, c, opened)?;
    Ok(Step::Going(opened))
}

/// A tree. What is open is kept in a list, so that a hostile text nests nothing here.
#[tactic(auto, using(crate::proofs::Trees::begun, crate::proofs::Trees::goes_on))]
fn tree(alloc: Global, c: &mut Cursor) -> Result<Tr, Stop>
    ensures { GaveTree result c.old c.new }
{
    c.literal("{")?;
    let mut opened = Open {
        levels: Seq::new(alloc),
        cases: Seq::new(alloc),
    };
    loop {
        match one_step(alloc, c, opened)? {
            Step::Done(tr) => return Ok(tr),
            Step::Going(next) => opened = next,
        }
    }
}

/// A transformer.
pub fn transformer(alloc: Global, c: &mut Cursor) -> Result<Transformer, Stop>
    ensures { GaveTransformer result c.old c.new }
{
    let before = outs(alloc, c)?;
    c.literal(" ")?;
    let body = tree(alloc, c)?;
    c.literal(" ")?;
    let after = outs(alloc, c)?;
    Ok(Transformer {
        before,
        body,
        after,
    })
}
