//! What operators give, and what they want of their operands.

ghost use Rattle.std.specs.Prelude.{◌≡◌};
ghost use Rattle.jz_type_sizes.specs.Operators.{group_of, is_of_words, gives, stops, takes_carry, count_want, left_of, right_of};

use crate::wants::{Want, fits_truth, sized_want};
use jz_tree::{BinOp, Size};

/// The operators by what they take and give.
#[derive(Clone, Copy)]
pub enum Group {
    /// Of two bools.
    Logic,
    /// Of two values, with a bool as result.
    Compare,
    /// Of a value and a count.
    Shift,
    /// Of two values.
    Arith,
}

pub(crate) fn group_of(op: BinOp) -> Group
    ensures { result ≡ group_of op }
{
    match op {
        BinOp::OrElse | BinOp::AndThen => Group::Logic,
        BinOp::Eq | BinOp::Ne | BinOp::Lt | BinOp::Le | BinOp::Gt | BinOp::Ge => Group::Compare,
        BinOp::LtS | BinOp::LeS | BinOp::GtS | BinOp::GeS => Group::Compare,
        BinOp::Shl | BinOp::Shr | BinOp::Sar | BinOp::Rol | BinOp::Ror => Group::Shift,
        _ => Group::Arith,
    }
}

/// Whether only words have the operation.
pub(crate) fn is_of_words(op: BinOp) -> bool
    ensures { result ≡ is_of_words op }
{
    match op {
        BinOp::LtS | BinOp::LeS | BinOp::GtS | BinOp::GeS => true,
        BinOp::Sar | BinOp::Rol | BinOp::Ror | BinOp::DivS | BinOp::RemS => true,
        _ => false,
    }
}

/// Whether the result is what the place wants.
pub(crate) fn gives(group: Group, want: Want) -> bool
    ensures { result ≡ gives group want }
{
    match group {
        Group::Logic | Group::Compare => fits_truth(want),
        Group::Shift | Group::Arith => !fits_truth(want),
    }
}

/// Whether nothing is asked of the operands.
pub(crate) fn stops(group: Group, want: Want) -> bool
    ensures { result ≡ stops group want }
{
    match group {
        Group::Logic | Group::Compare => false,
        Group::Shift | Group::Arith => fits_truth(want),
    }
}

/// Whether a bool may stand on the right, as it may be added and taken away where no integer is
/// wanted.
pub(crate) fn takes_carry(op: BinOp, want: Want) -> bool
    ensures { result ≡ takes_carry op want }
{
    match op {
        BinOp::Add | BinOp::Sub => !matches!(want, Want::Int | Want::Truth),
        _ => false,
    }
}

fn count_want(want: Want) -> Want
    ensures { result ≡ count_want want }
{
    match want {
        Want::Int => Want::Int,
        _ => Want::Word(Size::S8),
    }
}

/// What the left operand is to be; the size is that of a comparison.
pub(crate) fn left_of(group: Group, op: BinOp, inline: bool, size: Option<Size>, want: Want) -> Want
    ensures { result ≡ left_of group op inline size want }
{
    let words = is_of_words(op) && inline;
    match group {
        Group::Logic => Want::Truth,
        Group::Compare => sized_want(words, size),
        Group::Shift | Group::Arith => if words { Want::AnyWord } else { want },
    }
}

/// What the right operand is to be.
pub(crate) fn right_of(group: Group, carry: bool, size: Option<Size>, want: Want) -> Want
    ensures { result ≡ right_of group carry size want }
{
    match group {
        Group::Logic => Want::Truth,
        Group::Compare => sized_want(false, size),
        Group::Shift => count_want(want),
        Group::Arith => if carry { Want::Truth } else { want },
    }
}
