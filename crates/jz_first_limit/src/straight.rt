//! Statements without others in them.

ghost use Rattle.std.specs.Prelude.{◌≡◌, ◌≤◌, IfOk, OnOk};
ghost use Rattle.jz_tree.specs.Span.{Span as Place};
ghost use Rattle.jz_meaning.specs.Statements.{assign};
ghost use Rattle.jz_limits.specs.Limits.{most_statements};
ghost use Rattle.jz_limits.specs.InnerKnown.{numbers_of};
ghost use Rattle.jz_limits.specs.Values as values;
ghost use Rattle.jz_limits.specs.Values.{known_after};
ghost use Rattle.jz_limits.specs.Walks.{operation_walk};
ghost use Rattle.jz_first_limit.specs.InnerMet.{Meets};
ghost use Rattle.jz_first_limit.specs.InnerStraight.{MeetsOne, instructed_of, is_true};

use crate::met::{Met, one_more};
use jz_integers::{Constant, inline_value};
use jz_limits::{
    Known, Limit, ask_assignment, ask_instruction, inline_target, the_number, value_set,
};
use jz_tree::{BinOp, Expr, Lval, Seq, Text};
use std::alloc::{AllocError, Global};

/// What is assigned to, with the operation and the condition.
#[derive(Clone, Copy)]
pub struct Assigning<'a> {
    pub to: &'a Seq<Lval>,
    pub op: Option<BinOp>,
    pub cond: &'a Option<Expr>,
}

/// One more statement, which has this first limit besides.
fn one_with(count: usize, found: Option<Limit>) -> Met
    requires { count ≤ most_statements }
    ensures { MeetsOne count found result }
{
    match one_more(count) {
        Met::Passed(limit) => Met::Passed(limit),
        Met::Within(count) => match found {
            None => Met::Within(count),
            Some(limit) => Met::Passed(limit),
        },
    }
}

/// Whether a condition holds: an absent one does.
fn holds(alloc: Global, known: &Known, cond: &Option<Expr>) -> Result<bool, AllocError>
    ensures { let truth = values.holds_in (numbers_of known.now) cond.now in
        IfOk result (λ b. b ≡ is_true truth) }
{
    match cond {
        None => Ok(true),
        Some(cond) => match inline_value(alloc, known, cond)? {
            None => Ok(false),
            Some(Constant::Int(_)) => Ok(false),
            Some(Constant::Bool(truth)) => Ok(truth),
        },
    }
}

/// What is known behind an assignment.
fn update(
    alloc: Global,
    assigning: Assigning<'_>,
    value: &Expr,
    known: &mut Known,
) -> Result<(), AllocError>
    ensures { (at : Place) →
        let done = assign assigning.entry.to.now assigning.entry.op value.now
        assigning.entry.cond.now at in
        OnOk result (numbers_of known.new ≡ known_after (numbers_of known.old) done) }
{
    match inline_target(assigning.to) {
        None => Ok(()),
        Some(var) => {
            let holds = holds(alloc, known, assigning.cond)?;
            let set = value_set(alloc, known, var, assigning.op, value)?;
            if holds {
                known.set(var, the_number(set))?;
                Ok(())
            } else {
                Ok(())
            }
        }
    }
}

/// An assignment of an expression.
pub fn meet_value(
    alloc: Global,
    assigning: Assigning<'_>,
    value: &Expr,
    count: usize,
    known: &mut Known,
) -> Result<Met, AllocError>
    requires { count ≤ most_statements }
    ensures { (at : Place) →
        let done = assign assigning.entry.to.now assigning.entry.op value.now
        assigning.entry.cond.now at in
        let walk = operation_walk done (numbers_of known.old) in
        IfOk result (λ r. Meets count walk r (numbers_of known.new)) }
{
    let Assigning { to, op, cond } = assigning;
    let found = ask_assignment(alloc, known, to, op, value, cond)?;
    match one_with(count, found) {
        Met::Passed(limit) => Ok(Met::Passed(limit)),
        Met::Within(count) => {
            update(alloc, assigning, value, known)?;
            Ok(Met::Within(count))
        }
    }
}

/// An instruction that is named.
pub fn meet_instruction(
    alloc: Global,
    assigning: Assigning<'_>,
    name: &Text,
    args: &Seq<Expr>,
    count: usize,
    known: &Known,
) -> Result<Met, AllocError>
    requires { count ≤ most_statements }
    ensures { let e = numbers_of known.now in
        (at : Place) →
        let to = assigning.entry.to.now in
        let done = instructed_of to assigning.entry.op name.now args.now
        assigning.entry.cond.now at in
        IfOk result (λ r. Meets count (operation_walk done e) r e) }
{
    match assigning.op {
        Some(_) => Ok(one_more(count)),
        None => match assigning.cond {
            Some(_) => Ok(one_more(count)),
            None => {
                let found = ask_instruction(alloc, known, assigning.to, name, args)?;
                Ok(one_with(count, found))
            }
        },
    }
}
