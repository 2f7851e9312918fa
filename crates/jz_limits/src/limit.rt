//! The limits of an expansion.

use jz_tree::Span;

/// A limit that an expansion passes.
#[derive(Clone, Copy)]
pub enum Limit {
    /// There are too many statements.
    Expand,
    /// An inline expression has no value.
    InlineWidth(Span),
    /// An index of a register array is outside its cells.
    IndexRange(Span),
    /// An immediate, a displacement, a scale or a count has no field.
    ImmRange(Span),
}
