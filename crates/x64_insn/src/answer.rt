//! The result of an operation on words, and the status flags that it leaves.

ghost use Rattle.std.specs.Prelude.{◌≡◌, ◌<◌, ◌-◌, ◌≤ℤ◌, ◌+ℤ◌, ◌-ℤ◌, pos};
ghost use Rattle.jz_words.specs.Sizes.{modulus, signed};
ghost use Rattle.jz_words.specs.Words.{carried};
ghost use Rattle.x64_insn.specs.Answers.{flag, overflows, flags_of, sum_answer, difference_answer, and_answer, or_answer, xor_answer, alu_answer, with_carry_of, one_answer};

use crate::types::{Alu, FlagVal, One};
use jz_words::{Size, Word, add_carry, and, or, parity, sub_borrow, xor};

/// A word of the result, and the flags in the order of `Flag`.
#[derive(Clone, Copy)]
pub struct Answer {
    pub value: u64,
    pub flags: [FlagVal; 5],
}

pub(crate) fn flag(set: bool) -> FlagVal
    ensures { result ≡ flag set }
{
    if set { FlagVal::True } else { FlagVal::False }
}

/// Whether no signed word of the size is this number.
#[tactic(auto, unfolding(crate::specs::Answers::overflows))]
pub(crate) fn overflows(size: Size, value: i128) -> bool
    ensures { result ≡ overflows size value }
{
    let half = size.half() as i128;
    value < -half || half <= value
}

#[tactic(auto, unfolding(crate::specs::Answers::flags_of))]
pub(crate) fn flags_of(overflow: bool, carry: bool, word: Word) -> [FlagVal; 5]
    ensures { result ≡ flags_of word.size overflow carry word.bits }
{
    [
        flag(overflow),
        flag(carry),
        flag(word.size().half() <= word.bits()),
        flag(parity(word)),
        flag(word.bits() == 0),
    ]
}

/// A carry as a number.
fn carried(c: bool) -> i128
    ensures value { result ≡ pos (carried c) }
    ensures low { pos 0 ≤ℤ result }
    ensures high { result ≤ℤ pos 1 }
{
    if c { 1 } else { 0 }
}

/// The sum of two words and a carry as signed numbers.
fn signed_sum(a: Word, b: Word, c: bool) -> i128
    ensures { result ≡ (signed a.size a.bits +ℤ signed b.size b.bits) +ℤ pos (carried c) }
{
    a.signed() + b.signed() + carried(c)
}

/// The sum of two words of one size and a carry.
#[tactic(auto, unfolding(crate::specs::Answers::sum_answer))]
pub(crate) fn sum_answer(a: Word, b: Word, c: bool) -> Answer
    requires { a.size ≡ b.size }
    ensures value { result ≡ sum_answer a.size a.bits b.bits c }
    ensures fits { result.value < modulus a.size }
{
    let (sum, carry) = add_carry(a, b, c);
    let overflow = overflows(a.size(), signed_sum(a, b, c));
    Answer {
        value: sum.bits(),
        flags: flags_of(overflow, carry, sum),
    }
}

/// The difference of two words and a borrow as signed numbers.
fn signed_difference(a: Word, b: Word, c: bool) -> i128
    ensures { result ≡ (signed a.size a.bits -ℤ signed b.size b.bits) -ℤ pos (carried c) }
{
    a.signed() - b.signed() - carried(c)
}

/// The difference of two words of one size and a borrow.
#[tactic(auto, unfolding(crate::specs::Answers::difference_answer))]
pub(crate) fn difference_answer(a: Word, b: Word, c: bool) -> Answer
    requires { a.size ≡ b.size }
    ensures value { result ≡ difference_answer a.size a.bits b.bits c }
    ensures fits { result.value < modulus a.size }
{
    let (difference, borrow) = sub_borrow(a, b, c);
    let overflow = overflows(a.size(), signed_difference(a, b, c));
    Answer {
        value: difference.bits(),
        flags: flags_of(overflow, borrow, difference),
    }
}

/// The bits that both words have.
#[tactic(auto, unfolding(crate::specs::Answers::and_answer))]
fn and_answer(a: Word, b: Word) -> Answer
    requires { a.size ≡ b.size }
    ensures value { result ≡ and_answer a.size a.bits b.bits }
    ensures fits { result.value < modulus a.size }
{
    let word = and(a, b);
    Answer {
        value: word.bits(),
        flags: flags_of(false, false, word),
    }
}

/// The bits that one of the words has.
#[tactic(auto, unfolding(crate::specs::Answers::or_answer))]
fn or_answer(a: Word, b: Word) -> Answer
    requires { a.size ≡ b.size }
    ensures value { result ≡ or_answer a.size a.bits b.bits }
    ensures fits { result.value < modulus a.size }
{
    let word = or(a, b);
    Answer {
        value: word.bits(),
        flags: flags_of(false, false, word),
    }
}

/// The bits in which the words differ.
#[tactic(auto, unfolding(crate::specs::Answers::xor_answer))]
pub(crate) fn xor_answer(a: Word, b: Word) -> Answer
    requires { a.size ≡ b.size }
    ensures value { result ≡ xor_answer a.size a.bits b.bits }
    ensures fits { result.value < modulus a.size }
{
    let word = xor(a, b);
    Answer {
        value: word.bits(),
        flags: flags_of(false, false, word),
    }
}

/// An operation on two words of one size, with the carry that ADC and SBB read.
pub fn alu_answer(op: Alu, a: Word, b: Word, c: bool) -> Answer
    requires { a.size ≡ b.size }
    ensures value { result ≡ alu_answer op a.size a.bits b.bits c }
    ensures fits { result.value < modulus a.size }
{
    match op {
        Alu::Add => sum_answer(a, b, false),
        Alu::Or => or_answer(a, b),
        Alu::Adc => sum_answer(a, b, c),
        Alu::Sbb => difference_answer(a, b, c),
        Alu::And => and_answer(a, b),
        Alu::Sub => difference_answer(a, b, false),
        Alu::Xor => xor_answer(a, b),
        Alu::Cmp => difference_answer(a, b, false),
        Alu::Test => and_answer(a, b),
    }
}

/// The other bits of a word.
fn not(a: Word) -> u64
    ensures value { result ≡ modulus a.size - 1 - a.bits }
    ensures fits { result < modulus a.size }
{
    (a.size().modulus() - 1) as u64 - a.bits()
}

/// An answer whose CF is that of before.
fn with_carry_of(old: [FlagVal; 5], answer: Answer) -> Answer
    ensures { result ≡ with_carry_of old answer }
{
    let mut flags = answer.flags;
    flags[1] = old[1];
    Answer {
        value: answer.value,
        flags,
    }
}

/// An operation on one word, with the flags of before.
#[tactic(auto, unfolding(crate::specs::Answers::one_answer))]
pub fn one_answer(op: One, a: Word, old: [FlagVal; 5]) -> Answer
    ensures value { result ≡ one_answer op a.size a.bits old }
    ensures fits { result.value < modulus a.size }
{
    match op {
        One::Not => Answer {
            value: not(a),
            flags: old,
        },
        One::Neg => difference_answer(Word::new(a.size(), 0), a, false),
        One::Inc => with_carry_of(old, sum_answer(a, Word::new(a.size(), 1), false)),
        One::Dec => with_carry_of(old, difference_answer(a, Word::new(a.size(), 1), false)),
    }
}
