//! Typed operands, left sides and tests that the expansion leaves are of the forms that facts and
//! conditions ask. There is no code here.
#![tactic(auto)]

mod laws;

pub use laws::{operands_are_plain, results_are_plain};
