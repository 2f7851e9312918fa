//! What goes along while bodies are copied.

use jz_change::Step;
use jz_copies::Callable;
use jz_tree::{Seq, Stmt};
use std::alloc::Global;

/// The functions that calls copy, and where memory comes from.
#[derive(Drop)]
pub(crate) struct Copier<'a> {
    pub alloc: Global,
    pub callable: Callable<'a>,
}

/// The statements that were copied so far, and the number of the next copy.
#[derive(Drop)]
pub(crate) struct Copied {
    pub stmts: Seq<Stmt>,
    pub next: u32,
}

/// A body that stands in a statement, with what it makes of a leak, and the number of the next
/// copy behind it.
#[derive(Drop)]
pub(crate) struct Body {
    pub stmts: Seq<Stmt>,
    pub steps: Seq<Step>,
    pub next: u32,
}
