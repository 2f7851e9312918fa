//! Operations on the values of inline expressions.

ghost use Rattle.std.specs.Prelude.{◌≡◌};
ghost use Rattle.jz_integers.specs.Integers as values;

use crate::Constant;
use crate::inline::{is_settled, on_both};
use jz_tree::BinOp;

/// A number as a constant.
pub fn constant_of(number: Option<i128>) -> Option<Constant>
    ensures { result ≡ values.number number }
{
    match number {
        None => None,
        Some(n) => Some(Constant::Int(n)),
    }
}

/// The value of an operation whose operands have these values.
pub fn joined(op: BinOp, left: Option<Constant>, right: Option<Constant>) -> Option<Constant>
    ensures { result ≡ values.joined op left right }
{
    match left {
        None => None,
        Some(left) => {
            if is_settled(op, left) {
                return Some(left);
            }
            match right {
                None => None,
                Some(right) => on_both(op, left, right),
            }
        }
    }
}

/// The number, where the value is one.
pub fn the_number(value: Option<Constant>) -> Option<i128>
    ensures { result ≡ values.the_number value }
{
    match value {
        None => None,
        Some(Constant::Bool(_)) => None,
        Some(Constant::Int(n)) => Some(n),
    }
}
