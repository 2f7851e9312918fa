//! What a run takes and what it comes to.

use jz_leak::{Leak, MemMap};
use jz_meaning::Stuck;
use jz_tree::{Seq, Word};

/// The arguments of a function, one for each parameter and of its size, and the valid memory.
#[derive(Drop)]
pub struct Input {
    pub words: Seq<Word>,
    pub mem: MemMap,
}

/// What a run comes to.
#[derive(Drop)]
pub enum Outcome {
    /// The results, the memory at the end, and what was leaked.
    End(Seq<Word>, MemMap, Leak),
    /// A turn of a `while` was wanted and none was left.
    Cut(Leak),
    Stuck(Stuck),
}
