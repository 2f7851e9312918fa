//! Assignments of expressions.

ghost use Rattle.std.specs.Prelude.{◌≡◌, [], ◌∷◌, Some, IfOk};
ghost use Rattle.std.specs.Option.{option_or};
ghost use Rattle.jz_meaning.specs.Attempts.{Evaluates, Changes};
ghost use Rattle.jz_meaning.specs.States.{as_value};
ghost use Rattle.jz_meaning.specs.Stores.{state_of};
ghost use Rattle.jz_meaning.specs.Values.{own_size};
ghost use Rattle.jz_meaning.specs.Assignments as assignments;
ghost use Rattle.jz_run_assign.specs.Answers.{meant_results, GivesResults, value_assigned};
ghost use Rattle.jz_run_assign.specs.InnerRights.{right_side, IsCarry};
ghost use Rattle.jz_run_assign.specs.InnerParts.{one_value, results_chosen, results_written, right_assigned};

use crate::left::{left_size, left_sizes, write_all};
use crate::operands::truth_in;
use crate::pairs::pair_results;
use crate::reading::{read, right_value};
use crate::right::{Right, place_of, right_of, right_size};
use jz_meaning::{State, Stuck, Value, missing};
use jz_tree::{BinOp, Expr, Failure, Lval, Seq, Span};
use jz_words::Size;
use std::alloc::{AllocError, Global};

/// An assignment but for its right side: `to = ..` or `to op= ..`, and with a condition only where
/// that holds.
#[derive(Clone, Copy)]
pub struct Assignment<'a> {
    pub to: &'a Seq<Lval>,
    pub op: Option<BinOp>,
    pub cond: &'a Option<Expr>,
    pub span: Span,
}

fn one_result(
    right: Right<'_>,
    size: Option<Size>,
    state: &State,
    out: &mut Seq<u64>,
) -> Result<Seq<Option<Value>>, Failure<Stuck>>
    ensures { GivesResults result out.old out.new
        (one_value (right_side right.entry) size (state_of state.now)) }
{
    let value = right_value(right, size, state, out)?;
    let results = Seq::from_slice(out.allocator(), &[Some(value)])?;
    Ok(results)
}

/// The right side, by the number of left sides.
fn results_of(
    to: &Seq<Lval>,
    right: Right<'_>,
    span: Span,
    size: Option<Size>,
    state: &State,
    out: &mut Seq<u64>,
) -> Result<Seq<Option<Value>>, Failure<Stuck>>
    requires { IsCarry right }
    ensures { GivesResults result out.old out.new
        (assignments.results_of to.now (right_side right.entry) span size (state_of state.now)) }
{
    match to.as_slice() {
        [] => Err(Failure::Refused(missing(span))),
        [_] => {
            let results = one_result(right, size, state, out)?;
            Ok(results)
        }
        [_, _] => {
            let results = pair_results(right, span, size, state, out)?;
            Ok(results)
        }
        [_, _, _, ..] => Err(Failure::Refused(missing(span))),
    }
}

fn old_of(
    left: &Lval,
    span: Span,
    state: &State,
    out: &mut Seq<u64>,
) -> Result<Value, Failure<Stuck>>
    ensures { Evaluates result out.old out.new
        (assignments.old_value (left.now ∷ []) span (state_of state.now)) }
{
    match place_of(left) {
        None => Err(Failure::Refused(missing(span))),
        Some(place) => {
            let value = read(place, left_size(left), state, out)?;
            Ok(value)
        }
    }
}

/// What the one left side has.
fn old_value(
    to: &Seq<Lval>,
    span: Span,
    state: &State,
    out: &mut Seq<u64>,
) -> Result<Value, Failure<Stuck>>
    ensures { Evaluates result out.old out.new
        (assignments.old_value to.now span (state_of state.now)) }
{
    match to.as_slice() {
        [] => Err(Failure::Refused(missing(span))),
        [left] => {
            let value = old_of(left, span, state, out)?;
            Ok(value)
        }
        [_, _, ..] => Err(Failure::Refused(missing(span))),
    }
}

fn chosen(
    alloc: Global,
    holds: bool,
    values: Seq<Option<Value>>,
    old: Value,
) -> Result<Seq<Option<Value>>, AllocError>
    ensures { IfOk result (λ vs. meant_results vs ≡ assignments.chosen holds (meant_results values)
        (as_value old)) }
{
    if holds {
        Ok(values)
    } else {
        Seq::from_slice(alloc, &[Some(old)])
    }
}

/// The condition is read behind the operand, and then the old value, whatever the condition is.
fn conditioned(
    to: &Seq<Lval>,
    cond: &Expr,
    span: Span,
    values: Seq<Option<Value>>,
    state: &State,
    out: &mut Seq<u64>,
) -> Result<Seq<Option<Value>>, Failure<Stuck>>
    ensures { GivesResults result out.old out.new
        (assignments.conditioned to.now (Some cond.now) span (meant_results values)
        (state_of state.now)) }
{
    let holds = truth_in(span, cond, state, out)?;
    let old = old_value(to, span, state, out)?;
    let values = chosen(out.allocator(), holds, values, old)?;
    Ok(values)
}

fn where_conditioned(
    assignment: Assignment<'_>,
    values: Seq<Option<Value>>,
    state: &State,
    out: &mut Seq<u64>,
) -> Result<Seq<Option<Value>>, Failure<Stuck>>
    ensures { GivesResults result out.old out.new
        (results_chosen assignment.entry (meant_results values) (state_of state.now)) }
{
    match assignment.cond {
        None => Ok(values),
        Some(cond) => {
            let values = conditioned(assignment.to, cond, assignment.span, values, state, out)?;
            Ok(values)
        }
    }
}

/// The size of an assignment: that of its left sides, or else of its right side.
fn assigned_size(to: &Seq<Lval>, right: Right<'_>) -> Option<Size>
    ensures { result ≡ option_or (assignments.left_sizes to.now)
        (own_size (right_side right.entry)) }
{
    left_sizes(to).or(right_size(right))
}

/// The results, or under a condition what is chosen, are written.
fn write_results(
    assignment: Assignment<'_>,
    values: Seq<Option<Value>>,
    size: Option<Size>,
    state: &mut State,
    out: &mut Seq<u64>,
) -> Result<(), Failure<Stuck>>
    ensures { Changes result out.old out.new (state_of state.new)
        (results_written assignment.entry size (meant_results values) (state_of state.old)) }
{
    let values = where_conditioned(assignment, values, state, out)?;
    let Assignment {
        to,
        op: _,
        cond: _,
        span,
    } = assignment;
    write_all(span, size, to, values.as_slice(), state, out)?;
    Ok(())
}

fn assign_right(
    assignment: Assignment<'_>,
    right: Right<'_>,
    state: &mut State,
    out: &mut Seq<u64>,
) -> Result<(), Failure<Stuck>>
    requires { IsCarry right }
    ensures { Changes result out.old out.new (state_of state.new)
        (right_assigned assignment.entry (right_side right.entry) (state_of state.old)) }
{
    let size = assigned_size(assignment.to, right);
    let values = results_of(assignment.to, right, assignment.span, size, state, out)?;
    write_results(assignment, values, size, state, out)?;
    Ok(())
}

/// An assignment of an expression. Its numbers are appended to `out` in the order of evaluation.
pub fn assign(
    assignment: Assignment<'_>,
    value: &Expr,
    state: &mut State,
    out: &mut Seq<u64>,
) -> Result<(), Failure<Stuck>>
    ensures { Changes result out.old out.new (state_of state.new)
        (value_assigned assignment.entry value.now (state_of state.old)) }
{
    match right_of(assignment.to, assignment.op, value) {
        None => Err(Failure::Refused(missing(assignment.span))),
        Some(right) => {
            assign_right(assignment, right, state, out)?;
            Ok(())
        }
    }
}
