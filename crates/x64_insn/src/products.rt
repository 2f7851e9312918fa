//! Products and quotients of words, and the status flags that they leave.

ghost use Rattle.std.specs.Prelude.{◌≡◌, ◌≢◌, ◌<◌, ◌-◌, ◌^◌, ◌*◌, ◌/◌, pos, negsuc, int_div, int_rem, IfSome, IfNone};
ghost use Rattle.jz_words.specs.Sizes.{modulus, signed};
ghost use Rattle.jz_words.specs.Words.{residue};
ghost use Rattle.x64_insn.specs.Products.{product_flags, product_answer, signed_product_answer, low_product_answer, double_word, signed_double_word, quotient_answer, signed_quotient_answer};

use crate::answer::{Answer, flag, overflows};
use crate::types::FlagVal;
use jz_words::{Word, mul_signed, mul_wide, residue};

/// Two words of the result, the high and the low one of a product, or remainder and quotient; and
/// the flags in the order of `Flag`.
#[derive(Clone, Copy)]
pub struct DoubleAnswer {
    pub high: u64,
    pub low: u64,
    pub flags: [FlagVal; 5],
}

/// The flags of a product, by whether it needs more than the low word.
fn product_flags(more: bool) -> [FlagVal; 5]
    ensures { result ≡ product_flags more }
{
    let undefined = FlagVal::Undefined;
    [flag(more), flag(more), undefined, undefined, undefined]
}

/// Both words of the unsigned product of two words of one size.
#[tactic(auto, unfolding(crate::specs::Products::product_answer))]
pub fn product_answer(a: Word, b: Word) -> DoubleAnswer
    requires { a.size ≡ b.size }
    ensures value { result ≡ product_answer a.size a.bits b.bits }
    ensures high { result.high < modulus a.size }
    ensures low { result.low < modulus a.size }
{
    let product = mul_wide(a, b);
    let high = (product / a.size().modulus()) as u64;
    let low = (product % a.size().modulus()) as u64;
    DoubleAnswer {
        high,
        low,
        flags: product_flags(high != 0),
    }
}

/// Both words of the signed product of two words of one size.
#[tactic(auto, unfolding(crate::specs::Products::signed_product_answer))]
pub fn signed_product_answer(a: Word, b: Word) -> DoubleAnswer
    requires { a.size ≡ b.size }
    ensures value { result ≡ signed_product_answer a.size a.bits b.bits }
    ensures high { result.high < modulus a.size }
    ensures low { result.low < modulus a.size }
{
    let product = mul_signed(a, b);
    let high = product.div_euclid(a.size().modulus() as i128);
    DoubleAnswer {
        high: residue(a.size(), high).bits(),
        low: residue(a.size(), product).bits(),
        flags: product_flags(overflows(a.size(), product)),
    }
}

/// The low word of the signed product of two words of one size.
#[tactic(auto, unfolding(crate::specs::Products::low_product_answer))]
pub fn low_product_answer(a: Word, b: Word) -> Answer
    requires { a.size ≡ b.size }
    ensures value { result ≡ low_product_answer a.size a.bits b.bits }
    ensures fits { result.value < modulus a.size }
{
    let product = mul_signed(a, b);
    Answer {
        value: residue(a.size(), product).bits(),
        flags: product_flags(overflows(a.size(), product)),
    }
}

/// Two words of one size as one number.
fn double_word(high: Word, low: Word) -> u128
    requires { high.size ≡ low.size }
    ensures { result ≡ double_word high.size high.bits low.bits }
{
    high.bits() as u128 * high.size().modulus() + low.bits() as u128
}

/// Remainder and quotient of two words by a third, all of one size; none where that is 0 or no word
/// holds the quotient.
#[tactic(auto, unfolding(crate::specs::Products::quotient_answer))]
pub fn quotient_answer(high: Word, low: Word, divisor: Word) -> Option<DoubleAnswer>
    requires low { high.size ≡ low.size }
    requires divisor { high.size ≡ divisor.size }
    ensures value { result ≡ quotient_answer high.size high.bits low.bits divisor.bits }
    ensures remainder { IfSome result (λ r. r.high < modulus high.size) }
    ensures quotient { IfSome result (λ r. r.low < modulus high.size) }
{
    if divisor.bits() == 0 {
        return None;
    }
    let dividend = double_word(high, low);
    let divisor = divisor.bits() as u128;
    let quotient = dividend / divisor;
    if high.size().modulus() <= quotient {
        return None;
    }
    Some(DoubleAnswer {
        high: (dividend % divisor) as u64,
        low: quotient as u64,
        flags: [FlagVal::Undefined; 5],
    })
}

/// Two words of one size as one signed number.
fn signed_double_word(high: Word, low: Word) -> i128
    requires { high.size ≡ low.size }
    ensures { result ≡ signed_double_word high.size high.bits low.bits }
{
    high.signed() * high.size().modulus() as i128 + low.bits() as i128
}

/// Quotient and remainder, rounded towards 0; none where the quotient is 2^127.
fn rounded_quotient(dividend: i128, divisor: i128) -> Option<(i128, i128)>
    requires { divisor ≢ pos 0 }
    ensures some { IfSome result
        (λ r. (r.0 ≡ int_div dividend divisor) × (r.1 ≡ int_rem dividend divisor)) }
    ensures none { IfNone result ((dividend ≡ negsuc (2 ^ 127 - 1)) × (divisor ≡ negsuc 0)) }
{
    if dividend == i128::MIN && divisor == -1 {
        return None;
    }
    Some((dividend / divisor, dividend % divisor))
}

/// The same of signed words: the quotient is rounded towards 0.
#[tactic(auto, unfolding(crate::specs::Products::signed_quotient_answer))]
pub fn signed_quotient_answer(high: Word, low: Word, divisor: Word) -> Option<DoubleAnswer>
    requires low { high.size ≡ low.size }
    requires divisor { high.size ≡ divisor.size }
    ensures value { result ≡ signed_quotient_answer high.size high.bits low.bits divisor.bits }
    ensures remainder { IfSome result (λ r. r.high < modulus high.size) }
    ensures quotient { IfSome result (λ r. r.low < modulus high.size) }
{
    if divisor.bits() == 0 {
        return None;
    }
    let size = high.size();
    match rounded_quotient(signed_double_word(high, low), divisor.signed()) {
        None => None,
        Some((quotient, remainder)) => {
            if overflows(size, quotient) {
                None
            } else {
                Some(DoubleAnswer {
                    high: residue(size, remainder).bits(),
                    low: residue(size, quotient).bits(),
                    flags: [FlagVal::Undefined; 5],
                })
            }
        }
    }
}
