//! What instructions leave of words that are known.

ghost use Rattle.std.specs.Prelude.{◌≡◌, ◌<◌, false, [], ◌∷◌, ◌++◌, Some, IfOk, OnOk};
ghost use Rattle.x64_insn.specs.Words.{carried as carried_as};
ghost use Rattle.x64_insn.specs.Size.TheVariants as size;
ghost use Rattle.x64_insn.specs.Answers.{alu_answer as alu_answered};
ghost use Rattle.x64_insn.specs.Products.{no_flags};
ghost use Rattle.x64_insn.specs.Shifts as shifts;
ghost use Rattle.jz_meaning.specs.declared.value.Why.TheVariants as why;
ghost use Rattle.jz_meaning.specs.States.{as_value, word};
ghost use Rattle.jz_meaning.specs.Intrinsics as intrinsics;
ghost use Rattle.jz_run_assign.specs.Answers.{meant_results, GivesResults};
ghost use Rattle.jz_run_instruct.specs.InnerRows.{shift_flags, one_word_results, two_word_results};

use crate::results::{Results, alone, before_both, before_value, flags_set};
use crate::rows::{OneWord, Sets, TwoWords, set_by_shift};
use jz_meaning::{Stuck, Value, Why, missing};
use jz_tree::{Failure, Seq, Span};
use std::alloc::{AllocError, Global};
use x64_insn::{
    Alu, Answer, FlagVal, Shift, Size, Word, alu_answer, low_product_answer, one_answer,
    product_answer, quotient_answer, rol, ror, sar, shift_answer, shl, shr, swap_bytes,
};

/// An instruction on one word.
pub(crate) fn of_word(alloc: Global, row: OneWord, a: Word) -> Result<Results, AllocError>
    ensures { IfOk result (λ vs. meant_results vs ≡ one_word_results row a.size a.bits) }
{
    match row {
        OneWord::Alu(sets, op) => {
            let answer = one_answer(op, a, [FlagVal::Undefined; 5]);
            before_value(alloc, sets, a.size(), answer)
        }
        OneWord::Swapped => alone(alloc, swap_bytes(a)),
        OneWord::Same => alone(alloc, a),
    }
}

/// An operation on two words and a carry.
pub(crate) fn of_sum(
    alloc: Global,
    op: Alu,
    a: Word,
    b: Word,
    c: bool,
) -> Result<Results, AllocError>
    requires { a.size ≡ b.size }
    ensures { let sum = intrinsics.alu_results op a.size a.bits b.bits c in
        IfOk result (λ vs. meant_results vs ≡ sum) }
{
    let answer = alu_answer(op, a, b, c);
    before_value(alloc, Sets::All, a.size(), answer)
}

fn of_low_product(alloc: Global, a: Word, b: Word) -> Result<Results, AllocError>
    requires { a.size ≡ b.size }
    ensures { let product = intrinsics.low_product_results a.size a.bits b.bits in
        IfOk result (λ vs. meant_results vs ≡ product) }
{
    let answer = low_product_answer(a, b);
    before_value(alloc, Sets::All, a.size(), answer)
}

/// The high word before the low one.
fn of_product(alloc: Global, a: Word, b: Word) -> Result<Results, AllocError>
    requires { a.size ≡ b.size }
    ensures { let product = intrinsics.product_results a.size a.bits b.bits in
        IfOk result (λ vs. meant_results vs ≡ product) }
{
    let answer = product_answer(a, b);
    before_both(alloc, answer.flags, a.size(), answer.high, answer.low)
}

/// The flags alone.
fn of_comparison(alloc: Global, op: Alu, a: Word, b: Word) -> Result<Results, AllocError>
    requires { a.size ≡ b.size }
    ensures { let answer = alu_answered op a.size a.bits b.bits false in
        IfOk result (λ vs. meant_results vs ≡ intrinsics.all_flags answer.flags) }
{
    let answer = alu_answer(op, a, b, false);
    flags_set(alloc, Sets::All, answer.flags)
}

/// An instruction on two words.
pub(crate) fn of_words(
    alloc: Global,
    row: TwoWords,
    a: Word,
    b: Word,
) -> Result<Results, AllocError>
    requires { a.size ≡ b.size }
    ensures { IfOk result (λ vs. meant_results vs ≡ two_word_results row a.size a.bits b.bits) }
{
    match row {
        TwoWords::Alu(op) => of_sum(alloc, op, a, b, false),
        TwoWords::Compare(op) => of_comparison(alloc, op, a, b),
        TwoWords::LowProduct => of_low_product(alloc, a, b),
        TwoWords::Product => of_product(alloc, a, b),
    }
}

/// The bits of a count that a shift regards.
fn masked(size: Size, count: u128) -> u32
    ensures value { result ≡ shifts.masked size count }
    ensures below { result < 64 }
{
    match size {
        Size::S64 => (count % 64) as u32,
        Size::S8 | Size::S16 | Size::S32 => (count % 32) as u32,
    }
}

fn shifted(kind: Shift, a: Word, count: u32) -> Word
    requires { count < 64 }
    ensures size { result.size ≡ a.size }
    ensures bits { result.bits ≡ shifts.shifted kind a.size a.bits count }
{
    match kind {
        Shift::Rol => rol(a, count),
        Shift::Ror => ror(a, count),
        Shift::Shl => shl(a, count),
        Shift::Shr => shr(a, count),
        Shift::Sar => sar(a, count),
    }
}

/// A count that is known when the text is compiled: 0 changes nothing, and sets no flag.
fn by_constant(alloc: Global, kind: Shift, a: Word, count: u128) -> Result<Results, AllocError>
    ensures { let count = shifts.masked a.size count in
        let answer = shifts.shift_answer kind a.size a.bits count no_flags in
        let results = intrinsics.before_value (shift_flags kind answer.flags) a.size answer.value in
        IfOk result (λ vs. meant_results vs ≡ results) }
{
    let count = masked(a.size(), count);
    let answer = shift_answer(kind, a, count, [FlagVal::Undefined; 5]);
    before_value(alloc, set_by_shift(kind), a.size(), answer)
}

/// A count of the run, which may be 0: no flag is known afterwards.
fn by_byte(alloc: Global, kind: Shift, a: Word, count: u128) -> Result<Results, AllocError>
    ensures { let value = shifts.shifted kind a.size a.bits (shifts.masked a.size count) in
        let results = intrinsics.before_value (shift_flags kind no_flags) a.size value in
        IfOk result (λ vs. meant_results vs ≡ results) }
{
    let value = shifted(kind, a, masked(a.size(), count));
    let answer = Answer {
        value: value.bits(),
        flags: [FlagVal::Undefined; 5],
    };
    before_value(alloc, set_by_shift(kind), value.size(), answer)
}

/// A shift or a rotation of a word. No number is appended to `out`.
pub(crate) fn of_shift(
    kind: Shift,
    span: Span,
    a: Word,
    count: Value,
    out: &Seq<u64>,
) -> Result<Results, Failure<Stuck>>
    ensures { let shifted = intrinsics.shift_results (shift_flags kind) kind span a.size a.bits in
        GivesResults result out.now out.now (shifted (as_value count)) }
{
    match count {
        Value::Word(count) => {
            let results = by_byte(out.allocator(), kind, a, u128::from(count.bits()))?;
            Ok(results)
        }
        Value::Bool(_) => Err(Failure::Refused(missing(span))),
        Value::Int(count) => {
            if count < 0 {
                return Err(Failure::Refused(missing(span)));
            }
            let results = by_constant(out.allocator(), kind, a, count as u128)?;
            Ok(results)
        }
    }
}

/// The numbers that a division shows.
fn show(high: Word, low: Word, divisor: Word, out: &mut Seq<u64>) -> Result<(), AllocError>
    ensures { OnOk result (out.new ≡ out.old ++ (high.bits ∷ low.bits ∷ divisor.bits ∷ [])) }
{
    out.push(high.bits())?;
    out.push(low.bits())?;
    out.push(divisor.bits())?;
    Ok(())
}

/// Stuck for Divide.
fn no_quotient(span: Span) -> Stuck
    ensures { result ≡ record { span = span; why = why.Divide } }
{
    Stuck {
        span,
        why: Why::Divide,
    }
}

/// A division, the quotient before the remainder. High word, low word and divisor are appended to
/// `out`.
pub(crate) fn of_division(
    span: Span,
    high: Word,
    low: Word,
    divisor: Word,
    out: &mut Seq<u64>,
) -> Result<Results, Failure<Stuck>>
    requires low { high.size ≡ low.size }
    requires divisor { high.size ≡ divisor.size }
    ensures { let quotient = intrinsics.division_results span high.size high.bits low.bits in
        GivesResults result out.old out.new (quotient divisor.bits) }
{
    match quotient_answer(high, low, divisor) {
        None => Err(Failure::Refused(no_quotient(span))),
        Some(answer) => {
            let size = high.size();
            let alloc = out.allocator();
            let results = before_both(alloc, answer.flags, size, answer.low, answer.high)?;
            show(high, low, divisor, out)?;
            Ok(results)
        }
    }
}

/// A flag as a number.
fn carried(c: bool) -> u64
    ensures { result ≡ carried_as c }
{
    if c { 1 } else { 0 }
}

/// A condition as a byte.
pub(crate) fn of_truth(alloc: Global, c: bool) -> Result<Results, AllocError>
    ensures { IfOk result (λ vs. meant_results vs ≡ Some (word size.S8 (carried_as c)) ∷ []) }
{
    alone(alloc, Word::new(Size::S8, carried(c)))
}
