//! Breaches.

use jz_required::Reason;
use jz_tree::{Span, Text};

/// What is secret where it has to be public: a variable, or a scalar that was this cell of an array
/// in registers; a load.
#[derive(Drop)]
pub enum Secret {
    Variable(Text, Option<u32>),
    Memory,
}

/// A breach: where and why something has to be public, and the first secret there.
#[derive(Drop)]
pub struct Breach {
    pub span: Span,
    pub why: Reason,
    pub secret: Secret,
}
