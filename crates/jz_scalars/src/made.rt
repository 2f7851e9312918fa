//! What statements become, each with its steps.

use jz_change::Step;
use jz_tree::{Seq, Stmt, StmtKind};

/// What a statement becomes but for its annotations and its place.
#[derive(Drop)]
pub struct MadeKind {
    pub kind: StmtKind,
    pub steps: Seq<Step>,
}

/// A statement, and its steps: none of a mark, else one.
#[derive(Drop)]
pub struct MadeOne {
    pub stmt: Stmt,
    pub steps: Seq<Step>,
}

/// Statements in their order, and their steps.
#[derive(Drop)]
pub struct Made {
    pub stmts: Seq<Stmt>,
    pub steps: Seq<Step>,
}
