//! Places in a text.

/// A place in a text: line and column in bytes, both from 1. A line ends at a line feed (byte 10)
/// alone.
#[derive(Clone, Copy, PartialEq, Eq)]
pub struct Span {
    pub line: u32,
    pub col: u32,
}
