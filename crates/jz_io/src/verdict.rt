//! What is said of constant time.

use crate::Span;
use jz_data::Text;

/// How a secret shows in what an observer sees.
#[derive(Clone, Copy, PartialEq, Eq)]
pub enum CtKind {
    /// It decides a branch.
    Branch,
    /// It is part of an address.
    Address,
    /// It is an operand of a division.
    Divide,
}

/// Whether a function is constant time, or the place, the kind and the variable of its first
/// breach.
#[derive(Drop, PartialEq, Eq)]
pub enum Ct {
    Yes,
    No { span: Span, kind: CtKind, var: Text },
}
