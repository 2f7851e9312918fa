//! The operators of rows.

ghost use Rattle.std.specs.Prelude.{◌≡◌, ◌<◌, ◌≤◌, ℕ, pos, None, Some, IsTrue, IsFalse};
ghost use Rattle.jz_words.specs.Sizes.{bits_of};
ghost use Rattle.jz_row_operations.specs.Rows as rows;
ghost use Rattle.jz_row_operations.specs.Rows.{IsSumOp, IsCarryOp, IsShiftOp, IsWide};
ghost use Rattle.jz_rows.specs.Refusals.{FindsOr};

use jz_tree::{BinOp, Size};
use x64_insn::{Alu, Cond, Shift};

/// `+ - & | ^`.
pub(crate) fn alu_of(op: BinOp) -> Option<Alu>
    ensures { FindsOr result (λ alu. IsSumOp op × (alu ≡ rows.alu_of op)) (IsSumOp op → ⊥) }
{
    match op {
        BinOp::Add => Some(Alu::Add),
        BinOp::Sub => Some(Alu::Sub),
        BinOp::And => Some(Alu::And),
        BinOp::Or => Some(Alu::Or),
        BinOp::Xor => Some(Alu::Xor),
        _ => None,
    }
}

/// Whether the operands may be swapped.
pub(crate) fn commutes(op: BinOp) -> bool
    ensures { result ≡ rows.commutes op }
{
    match op {
        BinOp::Add => true,
        BinOp::And => true,
        BinOp::Or => true,
        BinOp::Xor => true,
        _ => false,
    }
}

/// `+ -` with a flag behind.
pub(crate) fn carry_of(op: BinOp) -> Option<Alu>
    ensures { FindsOr result (λ alu. IsCarryOp op × (alu ≡ rows.carry_alu op))
        (IsCarryOp op → ⊥) }
{
    match op {
        BinOp::Add => Some(Alu::Adc),
        BinOp::Sub => Some(Alu::Sbb),
        _ => None,
    }
}

/// `<< >> >>s <<r >>r`.
pub(crate) fn shift_of(op: BinOp) -> Option<Shift>
    ensures { FindsOr result (λ kind. IsShiftOp op × (kind ≡ rows.shift_of op))
        (IsShiftOp op → ⊥) }
{
    match op {
        BinOp::Shl => Some(Shift::Shl),
        BinOp::Shr => Some(Shift::Shr),
        BinOp::Sar => Some(Shift::Sar),
        BinOp::Rol => Some(Shift::Rol),
        BinOp::Ror => Some(Shift::Ror),
        _ => None,
    }
}

/// Whether two sums, or two differences, stand one in the other.
pub(crate) fn is_repeated(op: BinOp, inner: BinOp) -> bool
    ensures yes { IsTrue result → op ≡ inner }
    ensures no { IsFalse result → op ≡ inner → IsCarryOp op → ⊥ }
{
    match op {
        BinOp::Add => matches!(inner, BinOp::Add),
        BinOp::Sub => matches!(inner, BinOp::Sub),
        _ => false,
    }
}

/// What a count is masked with.
pub fn mask_of(size: Size) -> i128
    ensures { result ≡ pos (rows.mask_of size) }
{
    match size {
        Size::S8 => 31,
        Size::S16 => 31,
        Size::S32 => 31,
        Size::S64 => 63,
    }
}

/// Whether a size has 16 bits or more.
pub fn is_wide(size: Size) -> bool
    ensures yes { IsTrue result → IsWide size }
    ensures no { IsFalse result → IsWide size → ⊥ }
{
    match size {
        Size::S8 => false,
        Size::S16 => true,
        Size::S32 => true,
        Size::S64 => true,
    }
}

/// Whether a size has fewer bits than another.
pub(crate) fn is_below(size: Size, other: Size) -> bool
    ensures yes { IsTrue result → bits_of size < bits_of other }
    ensures no { IsFalse result → bits_of other ≤ bits_of size }
{
    size.bits() < other.bits()
}

/// A count below the bits of a size.
pub fn count_in(number: i128, size: Size) -> Option<u8>
    ensures { FindsOr result (λ n. (number ≡ pos n) × (n < bits_of size))
        ((n : ℕ) → number ≡ pos n → n < bits_of size → ⊥) }
{
    if number < 0 {
        return None;
    }
    let bits = i128::from(size.bits());
    if number < bits {
        Some(number as u8)
    } else {
        None
    }
}

/// The condition behind CMP that holds where a comparison does.
pub(crate) fn cond_of(op: BinOp) -> Option<Cond>
    ensures { FindsOr result (λ cond. rows.cond_of op ≡ Some cond) (rows.cond_of op ≡ None) }
{
    match op {
        BinOp::Eq => Some(Cond::E),
        BinOp::Ne => Some(Cond::Ne),
        BinOp::Lt => Some(Cond::B),
        BinOp::Le => Some(Cond::Be),
        BinOp::Gt => Some(Cond::A),
        BinOp::Ge => Some(Cond::Ae),
        BinOp::LtS => Some(Cond::L),
        BinOp::LeS => Some(Cond::Le),
        BinOp::GtS => Some(Cond::G),
        BinOp::GeS => Some(Cond::Ge),
        _ => None,
    }
}

/// The condition that holds where another one does not.
pub(crate) fn opposite(cond: Cond) -> Cond
    ensures { result ≡ rows.opposite cond }
{
    match cond {
        Cond::O => Cond::No,
        Cond::No => Cond::O,
        Cond::B => Cond::Ae,
        Cond::Ae => Cond::B,
        Cond::E => Cond::Ne,
        Cond::Ne => Cond::E,
        Cond::Be => Cond::A,
        Cond::A => Cond::Be,
        Cond::S => Cond::Ns,
        Cond::Ns => Cond::S,
        Cond::P => Cond::Np,
        Cond::Np => Cond::P,
        Cond::L => Cond::Ge,
        Cond::Ge => Cond::L,
        Cond::Le => Cond::G,
        Cond::G => Cond::Le,
    }
}
