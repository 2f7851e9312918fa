//! What the operators give.

ghost use Rattle.std.specs.Prelude.{◌≡◌, ◌++◌, ◌∷◌, [], true, IfOk, OnOk, IfSome, option_map, ◌≢◌, int_div, int_rem, ◌*◌, ◌%◌, ◌-◌, ◌<◌};
ghost use Rattle.std.specs.Option.{option_and_then};
ghost use Rattle.x64_insn.specs.Sizes.{signed, modulus, bits_of};
ghost use Rattle.x64_insn.specs.Words.{shl_of, shr_of, sar_of, rol_of, ror_of};
ghost use Rattle.jz_tree.specs.declared.expr.BinOp.TheVariants as op;
ghost use Rattle.jz_integers.specs.Integers as integers;
ghost use Rattle.jz_meaning.specs.Attempts.{Evaluates};
ghost use Rattle.jz_meaning.specs.Operators as operators;
ghost use Rattle.jz_meaning.specs.States.{as_value};
ghost use Rattle.jz_meaning.specs.declared.value.Why.TheVariants as why;
ghost use Rattle.jz_meaning.specs.States as states;

use crate::value::{Stuck, Value, Why, initialized, missing};
use jz_integers::{Constant, inverted, negated, on_integers};
use jz_tree::{BinOp, Failure, Seq, Span, is_shift, joins};
use std::alloc::AllocError;
use x64_insn::{
    Size, Word, add_carry, and, mul_wide, or, residue, rol, ror, sar, shl, shr, sub_borrow, xor,
};

/// Whether two words of these sizes can stand side by side.
#[tactic(auto, using(crate::proofs::Widths::equal_sizes))]
fn same_size(a: Size, b: Size) -> bool
    ensures is { result ≡ operators.same_size a b }
    ensures equal { result ≡ true → a ≡ b }
{
    a.bits() == b.bits()
}

/// The value in the place of a word of a size: a whole number is taken modulo 2 to the size, and a
/// word has to have that size.
pub fn word_of(size: Size, value: Value) -> Option<Word>
    ensures bits { option_map (λ w. w.bits) result ≡ operators.word_of size (as_value value) }
    ensures size { IfSome result (λ w. w.size ≡ size) }
{
    match value {
        Value::Word(word) => {
            if same_size(size, word.size()) {
                Some(word)
            } else {
                None
            }
        }
        Value::Bool(_) => None,
        Value::Int(number) => Some(residue(size, number)),
    }
}

fn no_quotient(span: Span) -> Stuck
    ensures { result ≡ record { span = span; why = why.Divide } }
{
    Stuck {
        span,
        why: Why::Divide,
    }
}

/// The numbers that a division shows.
fn show(high: u64, a: Word, b: Word, out: &mut Seq<u64>) -> Result<(), AllocError>
    ensures { OnOk result (out.new ≡ out.old ++ (high ∷ a.bits ∷ b.bits ∷ [])) }
{
    out.push(high)?;
    out.push(a.bits())?;
    out.push(b.bits())?;
    Ok(())
}

fn quotient(span: Span, a: Word, b: Word, out: &mut Seq<u64>) -> Result<Value, Failure<Stuck>>
    requires { a.size ≡ b.size }
    ensures { Evaluates result out.old out.new
        (operators.on_words op.Div span a.size a.bits b.bits) }
{
    if b.bits() == 0 {
        return Err(Failure::Refused(no_quotient(span)));
    }
    show(0, a, b, out)?;
    Ok(Value::Word(Word::new(a.size(), a.bits() / b.bits())))
}

fn remainder(span: Span, a: Word, b: Word, out: &mut Seq<u64>) -> Result<Value, Failure<Stuck>>
    requires { a.size ≡ b.size }
    ensures { Evaluates result out.old out.new
        (operators.on_words op.Rem span a.size a.bits b.bits) }
{
    if b.bits() == 0 {
        return Err(Failure::Refused(no_quotient(span)));
    }
    show(0, a, b, out)?;
    Ok(Value::Word(Word::new(a.size(), a.bits() % b.bits())))
}

/// All bits equal to the sign.
fn sign_word(a: Word) -> u64
    ensures { result ≡ operators.sign_word a.size a.bits }
{
    if a.bits() < a.size().half() {
        0
    } else {
        (a.size().modulus() - 1) as u64
    }
}

/// Whether a / b has no room in the word, if b is not 0.
fn is_least_by_minus_one(a: Word, b: Word) -> bool
    requires { a.size ≡ b.size }
    ensures { result ≡ operators.is_least_by_minus_one a.size a.bits b.bits }
{
    a.bits() == a.size().half() && b.bits() as u128 == a.size().modulus() - 1
}

/// Of the words as signed numbers: the quotient rounded towards 0, and the remainder.
fn divided(a: Word, b: Word) -> (i128, i128)
    requires zero { b.bits ≢ 0 }
    requires size { a.size ≡ b.size }
    ensures quotient { result.0 ≡ int_div (signed a.size a.bits) (signed a.size b.bits) }
    ensures remainder { result.1 ≡ int_rem (signed a.size a.bits) (signed a.size b.bits) }
{
    let dividend = a.signed();
    let divisor = b.signed();
    (dividend / divisor, dividend % divisor)
}

fn signed_quotient(
    span: Span,
    a: Word,
    b: Word,
    out: &mut Seq<u64>,
) -> Result<Value, Failure<Stuck>>
    requires { a.size ≡ b.size }
    ensures { Evaluates result out.old out.new
        (operators.on_words op.DivS span a.size a.bits b.bits) }
{
    if b.bits() == 0 || is_least_by_minus_one(a, b) {
        return Err(Failure::Refused(no_quotient(span)));
    }
    show(sign_word(a), a, b, out)?;
    Ok(Value::Word(residue(a.size(), divided(a, b).0)))
}

fn signed_remainder(
    span: Span,
    a: Word,
    b: Word,
    out: &mut Seq<u64>,
) -> Result<Value, Failure<Stuck>>
    requires { a.size ≡ b.size }
    ensures { Evaluates result out.old out.new
        (operators.on_words op.RemS span a.size a.bits b.bits) }
{
    if b.bits() == 0 || is_least_by_minus_one(a, b) {
        return Err(Failure::Refused(no_quotient(span)));
    }
    show(sign_word(a), a, b, out)?;
    Ok(Value::Word(residue(a.size(), divided(a, b).1)))
}

fn compared(op: BinOp, a: Word, b: Word) -> Option<bool>
    requires { a.size ≡ b.size }
    ensures { result ≡ operators.compared op a.size a.bits b.bits }
{
    match op {
        BinOp::Eq => Some(a.bits() == b.bits()),
        BinOp::Ne => Some(a.bits() != b.bits()),
        BinOp::Lt => Some(a.bits() < b.bits()),
        BinOp::Le => Some(a.bits() <= b.bits()),
        BinOp::Gt => Some(a.bits() > b.bits()),
        BinOp::Ge => Some(a.bits() >= b.bits()),
        BinOp::LtS => Some(a.signed() < b.signed()),
        BinOp::LeS => Some(a.signed() <= b.signed()),
        BinOp::GtS => Some(a.signed() > b.signed()),
        BinOp::GeS => Some(a.signed() >= b.signed()),
        _ => None,
    }
}

fn product(a: Word, b: Word) -> Word
    requires { a.size ≡ b.size }
    ensures size { result.size ≡ a.size }
    ensures bits { result.bits ≡ a.bits * b.bits % modulus a.size }
{
    let product = mul_wide(a, b) % a.size().modulus();
    Word::new(a.size(), product as u64)
}

/// On two words, where nothing is leaked.
fn plain(op: BinOp, a: Word, b: Word) -> Option<Value>
    requires { a.size ≡ b.size }
    ensures { option_map as_value result ≡ operators.plain op a.size a.bits b.bits }
{
    match op {
        BinOp::Or => Some(Value::Word(or(a, b))),
        BinOp::Xor => Some(Value::Word(xor(a, b))),
        BinOp::And => Some(Value::Word(and(a, b))),
        BinOp::Add => Some(Value::Word(add_carry(a, b, false).0)),
        BinOp::Sub => Some(Value::Word(sub_borrow(a, b, false).0)),
        BinOp::Mul => Some(Value::Word(product(a, b))),
        _ => match compared(op, a, b) {
            None => None,
            Some(answer) => Some(Value::Bool(answer)),
        },
    }
}

fn on_words(
    op: BinOp,
    span: Span,
    a: Word,
    b: Word,
    out: &mut Seq<u64>,
) -> Result<Value, Failure<Stuck>>
    requires { a.size ≡ b.size }
    ensures { Evaluates result out.old out.new (operators.on_words op span a.size a.bits b.bits) }
{
    match op {
        BinOp::Div => quotient(span, a, b, out),
        BinOp::Rem => remainder(span, a, b, out),
        BinOp::DivS => signed_quotient(span, a, b, out),
        BinOp::RemS => signed_remainder(span, a, b, out),
        _ => match plain(op, a, b) {
            None => Err(Failure::Refused(missing(span))),
            Some(value) => Ok(value),
        },
    }
}

#[tactic(auto, using(crate::proofs::Counts::shl_far))]
fn shifted_left(a: Word, count: u128) -> Word
    ensures size { result.size ≡ a.size }
    ensures bits { result.bits ≡ shl_of a.size a.bits count }
{
    if count < 64 {
        shl(a, count as u32)
    } else {
        Word::new(a.size(), 0)
    }
}

#[tactic(auto, using(crate::proofs::Counts::shr_far))]
fn shifted_right(a: Word, count: u128) -> Word
    ensures size { result.size ≡ a.size }
    ensures bits { result.bits ≡ shr_of a.bits count }
{
    if count < 64 {
        shr(a, count as u32)
    } else {
        Word::new(a.size(), 0)
    }
}

#[tactic(auto, using(crate::proofs::Counts::sar_far))]
fn shifted_with_sign(a: Word, count: u128) -> Word
    ensures size { result.size ≡ a.size }
    ensures bits { result.bits ≡ sar_of a.size a.bits count }
{
    if count < 64 {
        sar(a, count as u32)
    } else {
        sar(a, 63)
    }
}

/// How far a word of the size is turned.
fn turns(size: Size, count: u128) -> u32
    ensures is { result ≡ count % bits_of size }
    ensures below { result < 64 }
{
    (count % size.bits() as u128) as u32
}

#[tactic(auto, using(crate::proofs::Counts::rol_round))]
fn rotated_left(a: Word, count: u128) -> Word
    ensures size { result.size ≡ a.size }
    ensures bits { result.bits ≡ rol_of a.size a.bits count }
{
    rol(a, turns(a.size(), count))
}

#[tactic(auto, using(crate::proofs::Counts::ror_round))]
fn rotated_right(a: Word, count: u128) -> Word
    ensures size { result.size ≡ a.size }
    ensures bits { result.bits ≡ ror_of a.size a.bits count }
{
    ror(a, turns(a.size(), count))
}

fn shifted_word(op: BinOp, a: Word, count: u128) -> Option<Value>
    ensures { option_map as_value result ≡ operators.shifted_word op a.size a.bits count }
{
    match op {
        BinOp::Shl => Some(Value::Word(shifted_left(a, count))),
        BinOp::Shr => Some(Value::Word(shifted_right(a, count))),
        BinOp::Sar => Some(Value::Word(shifted_with_sign(a, count))),
        BinOp::Rol => Some(Value::Word(rotated_left(a, count))),
        BinOp::Ror => Some(Value::Word(rotated_right(a, count))),
        _ => None,
    }
}

/// A word and a flag.
fn by_flag(op: BinOp, a: Word, flag: bool) -> Option<Value>
    ensures { option_map as_value result ≡ operators.by_flag op a.size a.bits flag }
{
    let zero = Word::new(a.size(), 0);
    match op {
        BinOp::Add => Some(Value::Word(add_carry(a, zero, flag).0)),
        BinOp::Sub => Some(Value::Word(sub_borrow(a, zero, flag).0)),
        _ => None,
    }
}

fn count_of(value: Value) -> Option<u128>
    ensures { result ≡ operators.count_of (as_value value) }
{
    match value {
        Value::Word(word) => Some(word.bits() as u128),
        Value::Bool(_) => None,
        Value::Int(number) => {
            if number < 0 {
                None
            } else {
                Some(number as u128)
            }
        }
    }
}

/// Whether the left operand alone gives the answer of `&&` or `||`.
pub fn is_settled(op: BinOp, left: Value) -> bool
    ensures { result ≡ operators.is_settled op (as_value left) }
{
    match op {
        BinOp::AndThen => matches!(left, Value::Bool(false)),
        BinOp::OrElse => matches!(left, Value::Bool(true)),
        _ => false,
    }
}

/// The value of an inline expression.
fn of_constant(constant: Option<Constant>) -> Option<Value>
    ensures { option_map as_value result ≡ option_map operators.of_constant constant }
{
    match constant {
        None => None,
        Some(Constant::Int(number)) => Some(Value::Int(number)),
        Some(Constant::Bool(answer)) => Some(Value::Bool(answer)),
    }
}

#[tactic(auto, unfolding(crate::specs::Operators::combined))]
fn combined(
    op: BinOp,
    span: Span,
    x: Value,
    y: Value,
    out: &mut Seq<u64>,
) -> Result<Value, Failure<Stuck>>
    ensures { Evaluates result out.old out.new
        (operators.combined op span (as_value x) (as_value y)) }
{
    match x {
        Value::Word(a) => beside_word(op, span, a, y, out),
        Value::Int(a) => match y {
            Value::Word(b) => on_words(op, span, residue(b.size(), a), b, out),
            Value::Int(b) => initialized(span, of_constant(on_integers(op, a, b))),
            Value::Bool(_) => initialized(span, None),
        },
        Value::Bool(_) => match y {
            Value::Word(_) => initialized(span, None),
            Value::Int(_) => initialized(span, None),
            Value::Bool(b) => initialized(span, joined(op, b)),
        },
    }
}

/// Two flags.
fn joined(op: BinOp, right: bool) -> Option<Value>
    ensures { option_map as_value result ≡ operators.joined op right }
{
    if joins(op) {
        Some(Value::Bool(right))
    } else {
        None
    }
}

#[tactic(auto, unfolding(crate::specs::Operators::combined))]
fn beside_word(
    op: BinOp,
    span: Span,
    a: Word,
    y: Value,
    out: &mut Seq<u64>,
) -> Result<Value, Failure<Stuck>>
    ensures { Evaluates result out.old out.new
        (operators.combined op span (states.word a.size a.bits) (as_value y)) }
{
    match y {
        Value::Word(b) => {
            if same_size(a.size(), b.size()) {
                on_words(op, span, a, b, out)
            } else {
                initialized(span, None)
            }
        }
        Value::Int(b) => on_words(op, span, a, residue(a.size(), b), out),
        Value::Bool(flag) => initialized(span, by_flag(op, a, flag)),
    }
}

fn shifted_by(op: BinOp, a: Word, count: Option<u128>) -> Option<Value>
    ensures { option_map as_value result ≡ option_and_then (operators.shifted_word op a.size a.bits)
        count }
{
    match count {
        None => None,
        Some(count) => shifted_word(op, a, count),
    }
}

#[tactic(auto, unfolding(crate::specs::Operators::shifted))]
fn shifted_integer(op: BinOp, wanted: Option<Size>, a: i128, y: Value) -> Option<Value>
    ensures { option_map as_value result ≡ operators.shifted op wanted (states.integer a)
        (as_value y) }
{
    match y {
        Value::Word(count) => match wanted {
            None => None,
            Some(size) => shifted_word(op, residue(size, a), count.bits() as u128),
        },
        Value::Int(count) => of_constant(on_integers(op, a, count)),
        Value::Bool(_) => None,
    }
}

#[tactic(auto, unfolding(crate::specs::Operators::shifted))]
fn shifted(op: BinOp, wanted: Option<Size>, x: Value, y: Value) -> Option<Value>
    ensures { option_map as_value result ≡ operators.shifted op wanted (as_value x) (as_value y) }
{
    match x {
        Value::Word(a) => shifted_by(op, a, count_of(y)),
        Value::Int(a) => shifted_integer(op, wanted, a, y),
        Value::Bool(_) => None,
    }
}

/// The operation on two values where a word of a size is wanted. The three words of a division are
/// appended to `out`: the high word, the low word and the divisor. Stuck for Divide where a divisor
/// is 0 or a quotient has no room in the word, and for Init where typing excludes the operation or
/// whole numbers have no value.
#[tactic(auto, unfolding(crate::specs::Operators::binary))]
pub fn binary(
    op: BinOp,
    span: Span,
    wanted: Option<Size>,
    x: Value,
    y: Value,
    out: &mut Seq<u64>,
) -> Result<Value, Failure<Stuck>>
    ensures { Evaluates result out.old out.new
        (operators.binary op span wanted (as_value x) (as_value y)) }
{
    if is_shift(op) {
        initialized(span, shifted(op, wanted, x, y))
    } else {
        combined(op, span, x, y, out)
    }
}

fn negated_number(number: i128) -> Option<Value>
    ensures { option_map as_value result ≡ option_map states.integer (integers.negated number) }
{
    match negated(number) {
        None => None,
        Some(number) => Some(Value::Int(number)),
    }
}

/// 0 less the value. None of a flag, and of the least whole number.
#[tactic(auto, unfolding(crate::specs::Operators::negated))]
pub fn negated_value(value: Value) -> Option<Value>
    ensures { option_map as_value result ≡ operators.negated (as_value value) }
{
    match value {
        Value::Word(word) => {
            let zero = Word::new(word.size(), 0);
            Some(Value::Word(sub_borrow(zero, word, false).0))
        }
        Value::Int(number) => negated_number(number),
        Value::Bool(_) => None,
    }
}

/// Each bit of a value turned over, of a flag its answer.
#[tactic(auto, unfolding(crate::specs::Operators::inverted))]
pub fn inverted_value(value: Value) -> Value
    ensures { as_value result ≡ operators.inverted (as_value value) }
{
    match value {
        Value::Word(word) => {
            let ones = (word.size().modulus() - 1) as u64;
            Value::Word(Word::new(word.size(), ones - word.bits()))
        }
        Value::Int(number) => Value::Int(inverted(number)),
        Value::Bool(answer) => Value::Bool(!answer),
    }
}

/// The word of that size that a word becomes: cut off, or with zeros in front, or copies of its
/// sign where `signed`. None of what is no word.
#[tactic(auto, unfolding(crate::specs::Operators::cast))]
pub fn cast(size: Size, signed: bool, value: Value) -> Option<Value>
    ensures { option_map as_value result ≡ operators.cast size signed (as_value value) }
{
    match value {
        Value::Word(word) => {
            if signed {
                Some(Value::Word(residue(size, word.signed())))
            } else {
                Some(Value::Word(Word::truncate(size, word.bits())))
            }
        }
        Value::Int(_) => None,
        Value::Bool(_) => None,
    }
}
