//! What is known when the text is compiled.

/// The value of an inline expression.
#[derive(Clone, Copy, PartialEq, Eq)]
pub enum Constant {
    Int(i128),
    Bool(bool),
}
