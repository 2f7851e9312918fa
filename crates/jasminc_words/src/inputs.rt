//! What a command reads.

/// What a command reads.
#[derive(Clone, Copy)]
pub enum Input<'a> {
    /// The file of this name.
    File(&'a str),
    /// No file, but the program of a seed with so many statements.
    Program { seed: u32, size: u32 },
}
