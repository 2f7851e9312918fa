//! Kinds of statements.

/// What stands in a statement.
#[derive(Clone, Copy)]
pub enum Form {
    Operation,
    /// An operation that leaks nothing.
    Quiet,
    If,
    While,
    /// None of these.
    Other,
}
