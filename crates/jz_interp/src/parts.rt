//! Parts of statements that go together, as the text has them.

use jz_tree::{Expr, Seq, Span, Text, Var};

/// A test of an `if` or a `while`, and where it is told where it has no value.
#[derive(Clone, Copy)]
pub struct Test<'a> {
    pub cond: &'a Expr,
    pub span: Span,
}

/// A `for` but for its body: the counter, and the bounds as they are written.
#[derive(Clone, Copy)]
pub struct Counter<'a> {
    pub counter: &'a Var,
    pub from: &'a Expr,
    pub down: bool,
    pub to: &'a Expr,
    pub span: Span,
}

/// A right side that names a function or an instruction, with its operands and the name's place.
#[derive(Clone, Copy)]
pub struct Named<'a> {
    pub name: &'a Text,
    pub args: &'a Seq<Expr>,
    pub span: Span,
}
