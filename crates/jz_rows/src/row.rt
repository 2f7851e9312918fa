//! Rows as values.

use jz_operations::Action;

/// The places of the numbers that an action shows, among those that its statement leaks.
#[derive(Clone, Copy)]
pub struct Shown {
    pub first: Option<u64>,
    pub second: Option<u64>,
}

/// An action, and the numbers that it shows.
#[derive(Clone, Copy)]
pub struct Act {
    pub action: Action,
    pub shown: Shown,
}

/// The actions of a statement: one, or one behind another.
#[derive(Clone, Copy)]
pub struct Row {
    pub before: Option<Act>,
    pub last: Act,
}
