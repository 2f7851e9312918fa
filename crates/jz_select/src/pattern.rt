//! What a statement is turned into.

use jz_tree::Intrinsic;

/// What a statement is turned into: the row of the pattern table with that number, the condition of
/// an `if` or `while`, or an intrinsic.
#[derive(Clone, Copy, PartialEq, Eq)]
pub enum Pattern {
    P(u8),
    Condition,
    Intrinsic(Intrinsic),
}
