//! The value of an expression, and the numbers that it leaks.

ghost use Rattle.std.specs.Prelude.{◌≡◌};
ghost use Rattle.jz_tree.specs.Failures.{IfAnswered};
ghost use Rattle.jz_tree.specs.LeftSides.{IsSingle};
ghost use Rattle.jz_meaning.specs.Attempts.{Evaluates, value_seen};
ghost use Rattle.jz_meaning.specs.InnerEvaluating.{IsDetermined, go_on};
ghost use Rattle.jz_meaning.specs.States.{as_value};
ghost use Rattle.jz_meaning.specs.Stores.{state_of};
ghost use Rattle.jz_meaning.specs.Values as values;
ghost use Rattle.jz_meaning.specs.Values.{evaluated};

use crate::access::{cell, load, variable};
use crate::left::{LeftSide, Waiting, left_side, own_size};
use crate::operators::{binary, cast, inverted_value, is_settled, negated_value};
use crate::state::State;
use crate::value::{Stuck, Value, defined, missing};
use jz_tree::{BinOp, Expr, Failure, Seq, is_shift};
use x64_insn::Size;

/// What is wanted of the right operand, beside what is of the left one: a count is a byte.
pub fn right_wanted(op: BinOp, left: Option<Size>) -> Option<Size>
    ensures { result ≡ values.right_wanted op left }
{
    if is_shift(op) { Some(Size::S8) } else { left }
}

/// The value where what is wanted is settled.
#[cycle(evaluation)]
fn evaluate_settled(
    e: &Expr,
    wanted: Option<Size>,
    state: &State,
    out: &mut Seq<u64>,
) -> Result<Value, Failure<Stuck>>
    requires { IsDetermined wanted e.now }
    ensures { Evaluates result out.old out.new (evaluated e.now wanted (state_of state.now)) }
{
    let LeftSide {
        mut waiting,
        first,
        wanted: inner,
    } = left_side(out.allocator(), e, wanted)?;
    let mut value = evaluate_single(first, inner, state, out)?;
    while let Some(operation) = waiting.pop() {
        value = finish(operation, value, state, out)?;
    }
    Ok(value)
}

/// The operation whose left operand has this value.
#[cycle(evaluation)]
fn finish(
    operation: Waiting<'_>,
    left: Value,
    state: &State,
    out: &mut Seq<u64>,
) -> Result<Value, Failure<Stuck>>
    requires { IsDetermined (values.right_wanted operation.op operation.wanted)
        operation.right.now }
    ensures { Evaluates result out.old out.new
        (go_on operation.entry (state_of state.now) (as_value left)) }
{
    let Waiting {
        op,
        right,
        span,
        wanted,
    } = operation;
    if is_settled(op, left) {
        return Ok(left);
    }
    let right = evaluate_settled(right, right_wanted(op, wanted), state, out)?;
    let value = binary(op, span, wanted, left, right, out)?;
    Ok(value)
}

#[cycle(evaluation)]
fn evaluate_single(
    e: &Expr,
    wanted: Option<Size>,
    state: &State,
    out: &mut Seq<u64>,
) -> Result<Value, Failure<Stuck>>
    requires determined { IsDetermined wanted e.now }
    requires single { IsSingle e.now }
    ensures { Evaluates result out.old out.new (evaluated e.now wanted (state_of state.now)) }
{
    match e {
        Expr::Num(number, _) => Ok(Value::Int(*number)),
        Expr::Bool(truth, _) => Ok(Value::Bool(*truth)),
        Expr::Var(var) => {
            let value = variable(var, &state.store)?;
            Ok(value)
        }
        Expr::Cell(var, at) => {
            let index = evaluate_settled(at.get(), Some(Size::S64), state, out)?;
            let value = cell(var, index, &state.store, out)?;
            Ok(value)
        }
        Expr::Load(access) => {
            let address = evaluate_settled(access.at.get(), Some(Size::S64), state, out)?;
            let value = load(access, wanted, address, &state.memory, out)?;
            Ok(value)
        }
        Expr::Neg(operand, span) => {
            let value = evaluate_settled(operand.get(), wanted, state, out)?;
            let negated = defined(*span, negated_value(value))?;
            Ok(negated)
        }
        Expr::Not(operand, _) => {
            let value = evaluate_settled(operand.get(), wanted, state, out)?;
            Ok(inverted_value(value))
        }
        Expr::Cast {
            size,
            signed,
            e: operand,
            span,
        } => {
            let own = own_size(operand.get());
            let value = evaluate_settled(operand.get(), own, state, out)?;
            match cast(*size, *signed, value) {
                None => Err(Failure::Refused(missing(*span))),
                Some(word) => Ok(word),
            }
        }
        Expr::Bin(_, _, _, _) => unreachable!(),
    }
}

/// The value of an expression where a word of a size is wanted. Its numbers are appended to `out`:
/// from left to right the index of each access to an array, the address of each access to memory,
/// and the high word, the low word and the divisor of each division.
pub fn evaluate(
    e: &Expr,
    wanted: Option<Size>,
    state: &State,
    out: &mut Seq<u64>,
) -> Result<Value, Failure<Stuck>>
    ensures { Evaluates result out.old out.new (evaluated e.now wanted (state_of state.now)) }
{
    match wanted {
        None => evaluate_settled(e, own_size(e), state, out),
        Some(size) => evaluate_settled(e, Some(size), state, out),
    }
}

/// The value of an expression by itself.
pub fn value_of(e: &Expr, state: &State) -> Result<Value, Failure<Stuck>>
    ensures { IfAnswered result (λ r. value_seen r ≡ values.value_of e.now (state_of state.now)) }
{
    let mut numbers = Seq::new(state.store.allocator());
    let value = evaluate(e, None, state, &mut numbers)?;
    Ok(value)
}
