//! Operands, which are evaluated from left to right, and the results of them.

ghost use Rattle.std.specs.Prelude.{◌≡◌, Bool, [], ◌∷◌, Some, IfOk};
ghost use Rattle.x64_insn.specs.Size.TheVariants as size;
ghost use Rattle.jz_meaning.specs.Rules.{went};
ghost use Rattle.jz_meaning.specs.Attempts.{and_then};
ghost use Rattle.jz_meaning.specs.Stores.{state_of};
ghost use Rattle.jz_meaning.specs.Values.{evaluated};
ghost use Rattle.jz_meaning.specs.Assignments as assignments;
ghost use Rattle.jz_meaning.specs.Intrinsics as intrinsics;
ghost use Rattle.jz_run_assign.specs.Answers.{GivesResults};
ghost use Rattle.jz_run_instruct.specs.InnerAnswers.{both_words, GivesWords};
ghost use Rattle.jz_run_instruct.specs.InnerRows.{shift_flags, one_word_results, two_word_results};

use crate::results::Results;
use crate::rows::{OneWord, SizedOp, TwoWords};
use crate::words::{of_division, of_shift, of_sum, of_truth, of_word, of_words};
use jz_meaning::{State, Stuck, evaluate};
use jz_run_assign::{truth_in, word_in};
use jz_tree::{Expr, Failure, Seq, Span};
use x64_insn::{Alu, Shift, Size, Word};

/// The words of two operands.
fn words_in(
    span: Span,
    size: Size,
    a: &Expr,
    b: &Expr,
    state: &State,
    out: &mut Seq<u64>,
) -> Result<(Word, Word), Failure<Stuck>>
    ensures bits { let first = assignments.word_in span size a.now (state_of state.now) in
        let second = assignments.word_in span size b.now (state_of state.now) in
        GivesWords result out.old out.new (both_words first second) }
    ensures sizes { IfOk result (λ p. (p.0.size ≡ size) × (p.1.size ≡ size)) }
{
    let first = word_in(span, size, a, state, out)?;
    let second = word_in(span, size, b, state, out)?;
    Ok((first, second))
}

/// An instruction on one word.
pub(crate) fn with_one(
    row: OneWord,
    span: Span,
    size: Size,
    operand: &Expr,
    state: &State,
    out: &mut Seq<u64>,
) -> Result<Results, Failure<Stuck>>
    ensures { let results = one_word_results row size in
        let meaning = intrinsics.of_one results span size (operand.now ∷ []) in
        GivesResults result out.old out.new (meaning (state_of state.now)) }
{
    let word = word_in(span, size, operand, state, out)?;
    let results = of_word(out.allocator(), row, word)?;
    Ok(results)
}

/// An instruction on two words.
pub(crate) fn with_two(
    row: TwoWords,
    span: Span,
    size: Size,
    a: &Expr,
    b: &Expr,
    state: &State,
    out: &mut Seq<u64>,
) -> Result<Results, Failure<Stuck>>
    ensures { let results = two_word_results row size in
        let meaning = intrinsics.of_two results span size (a.now ∷ b.now ∷ []) in
        GivesResults result out.old out.new (meaning (state_of state.now)) }
{
    let (a, b) = words_in(span, size, a, b, state, out)?;
    let results = of_words(out.allocator(), row, a, b)?;
    Ok(results)
}

/// Two words are known, and the flag is not.
fn with_flag(
    op: Alu,
    span: Span,
    a: Word,
    b: Word,
    c: &Expr,
    state: &State,
    out: &mut Seq<u64>,
) -> Result<Results, Failure<Stuck>>
    requires { a.size ≡ b.size }
    ensures { let carry = assignments.bool_in span c.now (state_of state.now) in
        let sum = λ (k : Bool). went [] (intrinsics.alu_results op a.size a.bits b.bits k) in
        GivesResults result out.old out.new (and_then carry sum) }
{
    let carry = truth_in(span, c, state, out)?;
    let results = of_sum(out.allocator(), op, a, b, carry)?;
    Ok(results)
}

/// An operation on two words and a carry.
pub(crate) fn with_carry(
    operation: SizedOp,
    a: &Expr,
    b: &Expr,
    c: &Expr,
    state: &State,
    out: &mut Seq<u64>,
) -> Result<Results, Failure<Stuck>>
    ensures { let sum = intrinsics.alu_results operation.op operation.size in
        let operands = a.now ∷ b.now ∷ c.now ∷ [] in
        let meaning = intrinsics.of_carry sum operation.span operation.size operands in
        GivesResults result out.old out.new (meaning (state_of state.now)) }
{
    let SizedOp { op, span, size } = operation;
    let (a, b) = words_in(span, size, a, b, state, out)?;
    let results = with_flag(op, span, a, b, c, state, out)?;
    Ok(results)
}

/// The word is known, and the count is not: it is a byte, or known when the text is compiled.
fn by_count(
    kind: Shift,
    span: Span,
    word: Word,
    count: &Expr,
    state: &State,
    out: &mut Seq<u64>,
) -> Result<Results, Failure<Stuck>>
    ensures { let flags = shift_flags kind in
        let shifted = intrinsics.shift_results flags kind span word.size word.bits in
        let count = evaluated count.now (Some size.S8) (state_of state.now) in
        GivesResults result out.old out.new (and_then count shifted) }
{
    let count = evaluate(count, Some(Size::S8), state, out)?;
    let results = of_shift(kind, span, word, count, out)?;
    Ok(results)
}

/// A shift or a rotation.
pub(crate) fn with_count(
    kind: Shift,
    span: Span,
    size: Size,
    operand: &Expr,
    count: &Expr,
    state: &State,
    out: &mut Seq<u64>,
) -> Result<Results, Failure<Stuck>>
    ensures { let operands = operand.now ∷ count.now ∷ [] in
        let meaning = intrinsics.of_count (shift_flags kind) kind span size operands in
        GivesResults result out.old out.new (meaning (state_of state.now)) }
{
    let word = word_in(span, size, operand, state, out)?;
    let results = by_count(kind, span, word, count, state, out)?;
    Ok(results)
}

/// High and low word are known, and the divisor is not.
fn by_divisor(
    span: Span,
    high: Word,
    low: Word,
    divisor: &Expr,
    state: &State,
    out: &mut Seq<u64>,
) -> Result<Results, Failure<Stuck>>
    requires { high.size ≡ low.size }
    ensures { let divisor = assignments.word_in span high.size divisor.now (state_of state.now) in
        let quotient = intrinsics.division_results span high.size high.bits low.bits in
        GivesResults result out.old out.new (and_then divisor quotient) }
{
    let divisor = word_in(span, high.size(), divisor, state, out)?;
    let results = of_division(span, high, low, divisor, out)?;
    Ok(results)
}

/// A division.
pub(crate) fn with_division(
    span: Span,
    size: Size,
    high: &Expr,
    low: &Expr,
    divisor: &Expr,
    state: &State,
    out: &mut Seq<u64>,
) -> Result<Results, Failure<Stuck>>
    ensures { let operands = high.now ∷ low.now ∷ divisor.now ∷ [] in
        let meaning = intrinsics.of_division span size operands in
        GivesResults result out.old out.new (meaning (state_of state.now)) }
{
    let (high, low) = words_in(span, size, high, low, state, out)?;
    let results = by_divisor(span, high, low, divisor, state, out)?;
    Ok(results)
}

/// A condition as a byte.
pub(crate) fn with_condition(
    span: Span,
    c: &Expr,
    state: &State,
    out: &mut Seq<u64>,
) -> Result<Results, Failure<Stuck>>
    ensures { let meaning = intrinsics.of_condition span (c.now ∷ []) in
        GivesResults result out.old out.new (meaning (state_of state.now)) }
{
    let c = truth_in(span, c, state, out)?;
    let results = of_truth(out.allocator(), c)?;
    Ok(results)
}
