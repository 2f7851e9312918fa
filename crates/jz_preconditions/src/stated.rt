//! Preconditions where they stand.

use jz_annotations::Pre;
use jz_tree::Span;

/// What an entry says, and the place of its annotation's `#`.
#[derive(Drop)]
pub struct Stated {
    pub pre: Pre,
    pub span: Span,
}
