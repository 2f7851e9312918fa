//! The lines of a listing that tell callers what a function takes and gives.
#![tactic(auto)]

mod asked;
mod lines;

pub use asked::asked_lines;
pub use lines::{argument_lines, result_lines};
