//! Rows as values.

use jz_operations::Flags;
use jz_rows::Act;

/// The places of the numbers that a division shows behind that of its operand.
#[derive(Clone, Copy)]
pub struct Divided {
    pub high: u64,
    pub low: u64,
    pub by: u64,
}

/// The actions of a statement, one behind another.
#[derive(Clone, Copy)]
pub struct Acts {
    pub before: Option<Act>,
    pub between: Option<Act>,
    pub last: Act,
    /// What the last one shows of a division.
    pub divided: Option<Divided>,
}

/// The actions of a statement, and the variables that the flags of the last one become.
#[derive(Clone, Copy)]
pub struct PinnedRow {
    pub acts: Acts,
    pub flags: Flags,
}
