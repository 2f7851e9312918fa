//! Parts of what is read.

use jz_tree::{Span, Var};

/// What is read: memory, a scalar, or an array of which a cell is read.
#[derive(Clone, Copy)]
pub enum Part<'a> {
    Memory,
    Scalar(&'a Var),
    Array(&'a Var),
}

/// Why something has to be public: it is in the condition of an `if` or a `while`, in an index or
/// an address, or an operand of a division.
#[derive(Clone, Copy)]
pub enum Reason {
    Branch,
    Address,
    Divide,
}

/// A part that has to be public.
#[derive(Clone, Copy)]
pub struct Required<'a> {
    pub span: Span,
    pub why: Reason,
    pub part: Part<'a>,
}
