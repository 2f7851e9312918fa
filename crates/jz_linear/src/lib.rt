//! Linear code: instructions, labels, and jumps to labels.
#![tactic(auto)]

mod line;
mod lines;

pub use line::{Line, Linear};
pub use lines::linearize;
