//! Where labels stand, and which come of which.

use jz_tree::Var;

/// Where a label stands: memory, which is secret; what some statement drew, the first of which is
/// public; and each array.
#[derive(Clone, Copy)]
pub enum Node<'a> {
    Secret,
    Drawn(usize),
    Array(&'a Var),
}

/// The label at the end is secret where that at the beginning is.
#[derive(Clone, Copy)]
pub struct Edge<'a> {
    pub from: Node<'a>,
    pub to: Node<'a>,
}
