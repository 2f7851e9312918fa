//! The values of right sides.

ghost use Rattle.jz_tree.specs.declared.expr.Expr.TheVariants as expr;
ghost use Rattle.jz_meaning.specs.Attempts.{Evaluates};
ghost use Rattle.jz_meaning.specs.States.{as_value};
ghost use Rattle.jz_meaning.specs.Stores.{state_of};
ghost use Rattle.jz_meaning.specs.Values as values;
ghost use Rattle.jz_meaning.specs.Values.{evaluated};
ghost use Rattle.jz_run_assign.specs.InnerRights.{read_of, operand_of, right_side};

use crate::right::{Operand, Place, Right, left_wanted, place_size, update_size};
use jz_meaning::{
    State, Stuck, Value, binary, cell, evaluate, is_settled, load, own_size, right_wanted, variable,
};
use jz_tree::{BinOp, Expr, Failure, Seq, Span};
use jz_words::Size;

/// What a left side has, where a word of a size is wanted.
pub(crate) fn read(
    place: Place<'_>,
    wanted: Option<Size>,
    state: &State,
    out: &mut Seq<u64>,
) -> Result<Value, Failure<Stuck>>
    ensures { Evaluates result out.old out.new
        (evaluated (read_of place.entry) wanted (state_of state.now)) }
{
    match place {
        Place::Variable(var) => {
            let value = variable(var, &state.store)?;
            Ok(value)
        }
        Place::Cell(var, at) => {
            let index = evaluate(at, Some(Size::S64), state, out)?;
            let value = cell(var, index, &state.store, out)?;
            Ok(value)
        }
        Place::Memory(access) => {
            let address = evaluate(access.at.get(), Some(Size::S64), state, out)?;
            let value = load(access, wanted, address, &state.memory, out)?;
            Ok(value)
        }
    }
}

/// The value of an operand.
pub(crate) fn operand(
    operand: Operand<'_>,
    wanted: Option<Size>,
    state: &State,
    out: &mut Seq<u64>,
) -> Result<Value, Failure<Stuck>>
    ensures { Evaluates result out.old out.new
        (evaluated (operand_of operand.entry) wanted (state_of state.now)) }
{
    match operand {
        Operand::Value(e) => evaluate(e, wanted, state, out),
        Operand::Old(place) => read(place, wanted, state, out),
    }
}

/// The right operand, unless the left one has settled the answer, and then the operation.
fn with_right(
    op: BinOp,
    left: Value,
    right: &Expr,
    span: Span,
    wanted: Option<Size>,
    state: &State,
    out: &mut Seq<u64>,
) -> Result<Value, Failure<Stuck>>
    ensures { Evaluates result out.old out.new
        (values.with_right op (evaluated right.now) span wanted (state_of state.now)
        (as_value left)) }
{
    if is_settled(op, left) {
        return Ok(left);
    }
    let right = evaluate(right, right_wanted(op, wanted), state, out)?;
    let value = binary(op, span, wanted, left, right, out)?;
    Ok(value)
}

/// The value of `left op right`.
fn update(
    op: BinOp,
    left: Place<'_>,
    right: &Expr,
    span: Span,
    wanted: Option<Size>,
    state: &State,
    out: &mut Seq<u64>,
) -> Result<Value, Failure<Stuck>>
    ensures { Evaluates result out.old out.new
        (evaluated (expr.Bin op (read_of left.entry) right.now span) wanted (state_of state.now)) }
{
    let inner = left_wanted(op, wanted, place_size(left), own_size(right));
    let left = read(left, inner, state, out)?;
    let value = with_right(op, left, right, span, inner, state, out)?;
    Ok(value)
}

/// The value of a right side.
pub(crate) fn right_value(
    right: Right<'_>,
    wanted: Option<Size>,
    state: &State,
    out: &mut Seq<u64>,
) -> Result<Value, Failure<Stuck>>
    ensures { Evaluates result out.old out.new
        (evaluated (right_side right.entry) wanted (state_of state.now)) }
{
    match right {
        Right::Plain(e) => evaluate(e, wanted, state, out),
        Right::Update {
            op,
            left,
            right,
            span,
        } => update(op, left, right, span, wanted, state, out),
        Right::Carry {
            op,
            inner,
            left,
            right,
            flag,
            span,
        } => {
            let size = update_size(inner, left, right);
            let wanted = left_wanted(op, wanted, size, own_size(flag));
            let value = update(inner, left, right, span, wanted, state, out)?;
            let sum = with_right(op, value, flag, span, wanted, state, out)?;
            Ok(sum)
        }
    }
}
