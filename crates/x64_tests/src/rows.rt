//! The answer to the question of a row, by its first word.

use crate::{machines, runs, spellings, unspelled, words};
use std::alloc::{AllocError, Global};

/// The answer, each of its words behind a space.
pub fn answer(alloc: Global, question: &str) -> Result<String, AllocError> {
    let (kind, rest) = question.split_once(' ').unwrap_or((question, ""));
    match kind {
        "bytes" => spellings::read(alloc, rest),
        "code" => spellings::written(alloc, rest),
        "step" => machines::stepped(alloc, rest),
        "run" => runs::ran(alloc, rest),
        "mov_to_number" => unspelled::to_number(alloc),
        _ => words::answer(alloc, kind, rest),
    }
}
