//! A statement in the words of the table.

use crate::class::{Class, Operand};
use jz_tree::{BinOp, Intrinsic};
use jz_words::Size;

/// The right side of an assignment, by its outermost operation.
#[derive(Clone, Copy)]
pub enum Value {
    /// None of the others.
    Alone,
    /// `a op o`.
    Two(BinOp, Operand, Operand),
    /// `a + o + c` or `a - o - c` with a flag c.
    Carry(BinOp, Operand, Operand),
    /// `-a` or `!a`.
    One(Operand),
    /// A cast to that size, signed or not.
    Cast(Size, bool, Class),
}

#[derive(Clone, Copy)]
pub enum Shape {
    /// What leads, the destination, the whole right side, and its operation.
    Assign(Option<Class>, Class, Class, Value),
    /// The destination, the value, and whether the condition has an instruction.
    Conditional(Class, Class, bool),
    /// Whether the condition of an `if` or `while` matches.
    Test(bool),
    /// An intrinsic of one operand, with the size of its name and its value.
    One(Intrinsic, Option<Size>, Class, Operand),
    /// Of two operands.
    Two(Intrinsic, Option<Size>, Class, Operand, Operand),
    /// Of two operands and a flag.
    Three(Intrinsic, Class, Operand, Operand, Class),
    /// `LEA`: the destination, and whether the argument is a sum of an address.
    Address(Option<Size>, Class, bool),
    /// `CMP` or `TEST`, without a value.
    Compare(Intrinsic, Class, Class),
    /// `MUL`: the high and the low half; the operands beside the low one.
    Product(Option<Size>, Class, Class, Operand, Operand),
    /// `DIV`: quotient, remainder, high and low word, divisor, and whether the results stand apart
    /// from what is read after they are written.
    Division(Option<Size>, Class, Class, Class, Class, Class, bool),
    /// `SETcc`: the destination, and whether the condition has an instruction.
    Set(Option<Size>, Class, bool),
    /// None of these.
    Free,
}
