//! The lines that tell runs: numbers in hexadecimal digits, results, regions, preconditions, and where
//! a run was cut.
#![tactic(auto)]

mod lines;
mod preconditions;

pub use lines::{write_cut, write_quadword, write_result};
pub use preconditions::{write_pre, write_region};
