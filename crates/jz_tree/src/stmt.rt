//! Statements.

use crate::expr::{Access, BinOp, Expr, Var};
use jz_io::{Boxed, Seq, Span, Text};

/// What an assignment sets.
#[derive(Drop, PartialEq, Eq)]
pub enum Lval {
    /// `_`: the value is dropped.
    Skip(Span),
    Var(Var),
    /// The cell of an array.
    Cell(Var, Boxed<Expr>),
    /// What memory holds.
    Store(Access),
}

/// What an assignment sets it to. The span of a call is that of its name, that of an intrinsic that
/// of its `#`.
#[derive(Drop, PartialEq, Eq)]
pub enum Rhs {
    Value(Expr),
    Call(Text, Seq<Expr>, Span),
    /// An instruction by its name.
    Intrinsic(Text, Seq<Expr>, Span),
}

/// A statement. Its span is that of its first token behind its annotations.
#[cycle(statement)]
#[derive(Drop, PartialEq, Eq)]
pub struct Stmt {
    pub notes: Seq<crate::program::Note>,
    pub span: Span,
    pub kind: StmtKind,
}

#[cycle(statement)]
#[derive(Drop, PartialEq, Eq)]
pub enum StmtKind {
    /// `to = rhs`, with an operation `to = to op rhs`, and only where `cond` holds. A call without
    /// results sets nothing.
    Assign {
        to: Seq<Lval>,
        op: Option<BinOp>,
        rhs: Rhs,
        cond: Option<Expr>,
    },
    If(Expr, Seq<Stmt>, Seq<Stmt>),
    /// The prologue runs before each test. Without a body the loop ends with its test.
    While {
        prologue: Seq<Stmt>,
        cond: Expr,
        body: Option<Seq<Stmt>>,
    },
    For {
        counter: Var,
        from: Expr,
        down: bool,
        to: Expr,
        body: Seq<Stmt>,
    },
    /// The head of a body that the expansion copied: these variables are unset. No text has one.
    Mark(Seq<Var>),
}
