//! What the operators give on whole numbers of 128 bits.

ghost use Rattle.std.specs.Prelude.{◌≡◌, ◌<◌, ◌^◌, pos, ◌+ℤ◌, ◌-ℤ◌, ◌*ℤ◌};
ghost use Rattle.jz_integers.specs.Integers as numbers;
ghost use Rattle.jz_integers.specs.Integers.{in_range, count_of, with_count};

use crate::Constant;
use jz_tree::BinOp;

fn sum(a: i128, b: i128) -> Option<i128>
    ensures { result ≡ in_range (a +ℤ b) }
{
    a.checked_add(b)
}

fn difference(a: i128, b: i128) -> Option<i128>
    ensures { result ≡ in_range (a -ℤ b) }
{
    a.checked_sub(b)
}

fn product(a: i128, b: i128) -> Option<i128>
    ensures { result ≡ in_range (a *ℤ b) }
{
    a.checked_mul(b)
}

fn quotient(a: i128, b: i128) -> Option<i128>
    ensures { result ≡ numbers.quotient a b }
{
    a.checked_div(b)
}

fn remainder(a: i128, b: i128) -> Option<i128>
    ensures { result ≡ numbers.remainder a b }
{
    a.checked_rem(b)
}

fn count(b: i128) -> Option<u32>
    ensures { result ≡ count_of b }
{
    if b < 0 || b > 127 {
        None
    } else {
        Some(b as u32)
    }
}

fn shifted_to_the_sign(a: i128) -> Option<i128>
    ensures { result ≡ numbers.shifted_left a 127 }
{
    // 2 to the 127 has no 128 bits, and of the numbers other than 0 only -1 times it does.
    match a {
        0 => Some(0),
        -1 => Some(i128::MIN),
        _ => None,
    }
}

fn power(count: u32) -> i128
    requires { count < 127 }
    ensures { result ≡ pos (2 ^ count) }
{
    1i128 << count
}

fn shifted_by(a: i128, count: u32) -> Option<i128>
    requires { count < 128 }
    ensures { result ≡ numbers.shifted_left a count }
{
    if count == 127 {
        shifted_to_the_sign(a)
    } else {
        product(a, power(count))
    }
}

fn shifted_left(a: i128, b: i128) -> Option<i128>
    ensures { result ≡ with_count (count_of b) (numbers.shifted_left a) }
{
    match count(b) {
        None => None,
        Some(count) => shifted_by(a, count),
    }
}

fn shifted_right(a: i128, b: i128) -> Option<i128>
    ensures { result ≡ with_count (count_of b) (numbers.shifted_right a) }
{
    match count(b) {
        None => None,
        Some(count) => Some(a >> count),
    }
}

/// None where it has no 128 bits.
pub fn negated(a: i128) -> Option<i128>
    ensures { result ≡ numbers.negated a }
{
    a.checked_neg()
}

/// Each of its 128 bits turned over.
pub fn inverted(a: i128) -> i128
    ensures { result ≡ numbers.inverted a }
{
    !a
}

fn number(n: Option<i128>) -> Option<Constant>
    ensures { result ≡ numbers.number n }
{
    match n {
        None => None,
        Some(n) => Some(Constant::Int(n)),
    }
}

/// The operation on two whole numbers. None where the exact value has no 128 bits, where the
/// divisor is 0 or the count of a shift is not 0 to 127, and for what whole numbers do not have:
/// signed forms, rotations, `&&` and `||`.
pub fn on_integers(op: BinOp, a: i128, b: i128) -> Option<Constant>
    ensures { result ≡ numbers.on_integers op a b }
{
    match op {
        BinOp::OrElse => None,
        BinOp::AndThen => None,
        BinOp::Or => Some(Constant::Int(a | b)),
        BinOp::Xor => Some(Constant::Int(a ^ b)),
        BinOp::And => Some(Constant::Int(a & b)),
        BinOp::Eq => Some(Constant::Bool(a == b)),
        BinOp::Ne => Some(Constant::Bool(a != b)),
        BinOp::Lt => Some(Constant::Bool(a < b)),
        BinOp::Le => Some(Constant::Bool(a <= b)),
        BinOp::Gt => Some(Constant::Bool(a > b)),
        BinOp::Ge => Some(Constant::Bool(a >= b)),
        BinOp::LtS => None,
        BinOp::LeS => None,
        BinOp::GtS => None,
        BinOp::GeS => None,
        BinOp::Shl => number(shifted_left(a, b)),
        BinOp::Shr => number(shifted_right(a, b)),
        BinOp::Sar => None,
        BinOp::Rol => None,
        BinOp::Ror => None,
        BinOp::Add => number(sum(a, b)),
        BinOp::Sub => number(difference(a, b)),
        BinOp::Mul => number(product(a, b)),
        BinOp::Div => number(quotient(a, b)),
        BinOp::Rem => number(remainder(a, b)),
        BinOp::DivS => None,
        BinOp::RemS => None,
    }
}
