//! What is known along a body, and the parts of loops.

ghost use Rattle.std.specs.Prelude.{◌≡◌};

use jz_fact_sets::{Given, Table};
use jz_tree::{Expr, Seq, Span, Stmt};

/// What is given of a function, and the heads of its loops.
#[derive(Clone, Copy)]
pub(crate) struct Known<'s, 'a> {
    pub(crate) given: &'s Given,
    pub(crate) heads: &'s [Table<'a>],
}

/// What an arm lays over what comes in at it, and the number of the loop behind it.
#[derive(Drop)]
pub(crate) struct Arm<'a> {
    pub(crate) next: usize,
    pub(crate) table: Table<'a>,
}

/// The parts of a loop.
#[derive(Clone, Copy)]
pub(crate) struct Loop<'a> {
    pub(crate) span: Span,
    pub(crate) prologue: &'a Seq<Stmt>,
    pub(crate) cond: &'a Expr,
    pub(crate) body: &'a Option<Seq<Stmt>>,
}
