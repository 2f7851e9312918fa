//! Each instruction with its operands.

ghost use Rattle.jz_meaning.specs.Stores.{state_of};
ghost use Rattle.jz_meaning.specs.Intrinsics as intrinsics;
ghost use Rattle.jz_run_assign.specs.Answers.{GivesResults};
ghost use Rattle.jz_run_instruct.specs.InnerRows.{shift_flags, row_results};
ghost use Rattle.jz_run_instruct.specs.InnerRows.{one_word_results, two_word_results};

use crate::operands::{with_carry, with_condition, with_count, with_division, with_one, with_two};
use crate::results::Results;
use crate::rows::{OneWord, Row, SizedOp, TwoWords, row_of};
use jz_meaning::{State, Stuck, missing};
use jz_tree::{Expr, Failure, Intrinsic, Seq, Span};
use x64_insn::{Alu, Shift, Size};

fn of_one(
    row: OneWord,
    span: Span,
    size: Size,
    operands: &[Expr],
    state: &State,
    out: &mut Seq<u64>,
) -> Result<Results, Failure<Stuck>>
    ensures { let meaning = intrinsics.of_one (one_word_results row size) span size operands.now in
        GivesResults result out.old out.new (meaning (state_of state.now)) }
{
    match operands {
        [a] => with_one(row, span, size, a, state, out),
        _ => Err(Failure::Refused(missing(span))),
    }
}

fn of_two(
    row: TwoWords,
    span: Span,
    size: Size,
    operands: &[Expr],
    state: &State,
    out: &mut Seq<u64>,
) -> Result<Results, Failure<Stuck>>
    ensures { let meaning = intrinsics.of_two (two_word_results row size) span size operands.now in
        GivesResults result out.old out.new (meaning (state_of state.now)) }
{
    match operands {
        [a, b] => with_two(row, span, size, a, b, state, out),
        _ => Err(Failure::Refused(missing(span))),
    }
}

fn of_carry(
    op: Alu,
    span: Span,
    size: Size,
    operands: &[Expr],
    state: &State,
    out: &mut Seq<u64>,
) -> Result<Results, Failure<Stuck>>
    ensures { let sum = intrinsics.alu_results op size in
        let meaning = intrinsics.of_carry sum span size operands.now in
        GivesResults result out.old out.new (meaning (state_of state.now)) }
{
    match operands {
        [a, b, c] => with_carry(SizedOp { op, span, size }, a, b, c, state, out),
        _ => Err(Failure::Refused(missing(span))),
    }
}

fn of_count(
    kind: Shift,
    span: Span,
    size: Size,
    operands: &[Expr],
    state: &State,
    out: &mut Seq<u64>,
) -> Result<Results, Failure<Stuck>>
    ensures { let meaning = intrinsics.of_count (shift_flags kind) kind span size operands.now in
        GivesResults result out.old out.new (meaning (state_of state.now)) }
{
    match operands {
        [a, count] => with_count(kind, span, size, a, count, state, out),
        _ => Err(Failure::Refused(missing(span))),
    }
}

fn of_division(
    span: Span,
    size: Size,
    operands: &[Expr],
    state: &State,
    out: &mut Seq<u64>,
) -> Result<Results, Failure<Stuck>>
    ensures { let meaning = intrinsics.of_division span size operands.now in
        GivesResults result out.old out.new (meaning (state_of state.now)) }
{
    match operands {
        [high, low, divisor] => with_division(span, size, high, low, divisor, state, out),
        _ => Err(Failure::Refused(missing(span))),
    }
}

fn of_condition(
    span: Span,
    operands: &[Expr],
    state: &State,
    out: &mut Seq<u64>,
) -> Result<Results, Failure<Stuck>>
    ensures { let meaning = intrinsics.of_condition span operands.now in
        GivesResults result out.old out.new (meaning (state_of state.now)) }
{
    match operands {
        [c] => with_condition(span, c, state, out),
        _ => Err(Failure::Refused(missing(span))),
    }
}

fn of_row(
    row: Row,
    span: Span,
    size: Size,
    operands: &[Expr],
    state: &State,
    out: &mut Seq<u64>,
) -> Result<Results, Failure<Stuck>>
    ensures { let meaning = row_results row span size operands.now in
        GivesResults result out.old out.new (meaning (state_of state.now)) }
{
    match row {
        Row::One(row) => of_one(row, span, size, operands, state, out),
        Row::Address => of_one(OneWord::Same, span, Size::S64, operands, state, out),
        Row::Two(row) => of_two(row, span, size, operands, state, out),
        Row::Carry(op) => of_carry(op, span, size, operands, state, out),
        Row::Count(kind) => of_count(kind, span, size, operands, state, out),
        Row::Division => of_division(span, size, operands, state, out),
        Row::Condition => of_condition(span, operands, state, out),
    }
}

/// The results of an instruction at words of a size; stuck for Init where there is none.
pub(crate) fn results_of(
    name: Intrinsic,
    span: Span,
    size: Option<Size>,
    operands: &[Expr],
    state: &State,
    out: &mut Seq<u64>,
) -> Result<Results, Failure<Stuck>>
    ensures { let meaning = intrinsics.sized_results name span size operands.now in
        GivesResults result out.old out.new (meaning (state_of state.now)) }
{
    match size {
        None => Err(Failure::Refused(missing(span))),
        Some(size) => of_row(row_of(name), span, size, operands, state, out),
    }
}
