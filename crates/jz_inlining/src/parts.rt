//! Parts of statements that go together, as the text has them.

ghost use Rattle.std.specs.Prelude.{◌≡◌};

use jz_tree::{BinOp, Expr, Fun, Lval, Note, Seq, Span, Stmt, Var};

/// An assignment but for its right side.
#[derive(Clone, Copy)]
pub(crate) struct Assignment<'a> {
    pub notes: &'a Seq<Note>,
    pub span: Span,
    pub to: &'a Seq<Lval>,
    pub op: Option<BinOp>,
    pub cond: &'a Option<Expr>,
}

impl<'a> Assignment<'a> {
    /// That of a statement, by its parts.
    pub(crate) fn of(
        stmt: &'a Stmt,
        to: &'a Seq<Lval>,
        op: Option<BinOp>,
        cond: &'a Option<Expr>,
    ) -> Assignment<'a>
        ensures notes { result.notes.now ≡ stmt.now.notes }
        ensures span { result.span ≡ stmt.now.span }
        ensures to { result.to.now ≡ to.now }
        ensures op { result.op ≡ op }
        ensures cond { result.cond.now ≡ cond.now }
    {
        Assignment {
            notes: &stmt.notes,
            span: stmt.span,
            to,
            op,
            cond,
        }
    }
}

/// A call of a function. Its span is that of the name.
#[derive(Clone, Copy)]
pub(crate) struct Call<'a> {
    pub to: &'a Seq<Lval>,
    pub callee: &'a Fun,
    pub args: &'a Seq<Expr>,
    pub span: Span,
}

/// An `if` or a `while` but for its bodies.
#[derive(Clone, Copy)]
pub(crate) struct Test<'a> {
    pub notes: &'a Seq<Note>,
    pub span: Span,
    pub cond: &'a Expr,
}

impl<'a> Test<'a> {
    /// That of a statement with this condition.
    pub(crate) fn of(stmt: &'a Stmt, cond: &'a Expr) -> Test<'a>
        ensures notes { result.notes.now ≡ stmt.now.notes }
        ensures span { result.span ≡ stmt.now.span }
        ensures cond { result.cond.now ≡ cond.now }
    {
        Test {
            notes: &stmt.notes,
            span: stmt.span,
            cond,
        }
    }
}

/// A `for` but for its body.
#[derive(Clone, Copy)]
pub(crate) struct Counter<'a> {
    pub notes: &'a Seq<Note>,
    pub span: Span,
    pub counter: &'a Var,
    pub from: &'a Expr,
    pub down: bool,
    pub to: &'a Expr,
}

impl<'a> Counter<'a> {
    /// That of a statement, by its parts.
    pub(crate) fn of(
        stmt: &'a Stmt,
        counter: &'a Var,
        from: &'a Expr,
        down: bool,
        to: &'a Expr,
    ) -> Counter<'a>
        ensures notes { result.notes.now ≡ stmt.now.notes }
        ensures span { result.span ≡ stmt.now.span }
        ensures counter { result.counter.now ≡ counter.now }
        ensures from { result.from.now ≡ from.now }
        ensures down { result.down ≡ down }
        ensures to { result.to.now ≡ to.now }
    {
        Counter {
            notes: &stmt.notes,
            span: stmt.span,
            counter,
            from,
            down,
            to,
        }
    }
}
