//! Sorts of operators of two operands.

ghost use Rattle.std.specs.Prelude.{◌≡◌};
ghost use Rattle.jz_tree.specs.Operators as operators;

use crate::expr::BinOp;

/// Whether it is `&&` or `||`.
pub fn joins(op: BinOp) -> bool
    ensures { result ≡ operators.joins op }
{
    matches!(op, BinOp::AndThen | BinOp::OrElse)
}

/// Whether it shifts or rotates: its operands may differ in size.
pub fn is_shift(op: BinOp) -> bool
    ensures { result ≡ operators.is_shift op }
{
    matches!(
        op,
        BinOp::Shl | BinOp::Shr | BinOp::Sar | BinOp::Rol | BinOp::Ror
    )
}

/// Whether it gives a quotient or a remainder.
pub fn divides(op: BinOp) -> bool
    ensures { result ≡ operators.divides op }
{
    matches!(op, BinOp::Div | BinOp::Rem | BinOp::DivS | BinOp::RemS)
}

/// Whether these are two sums, or two differences: a flag behind both is their carry or borrow.
pub fn carries(op: BinOp, other: BinOp) -> bool
    ensures value { result ≡ operators.carries op other }
    ensures turned { result ≡ operators.carries other op }
{
    match op {
        BinOp::Add => matches!(other, BinOp::Add),
        BinOp::Sub => matches!(other, BinOp::Sub),
        _ => false,
    }
}
