//! Statements with a row of the pattern table through the passes of the expansion. There is no code
//! here.
#![tactic(auto)]

mod laws;

pub use laws::{instructions_are_kept, pairs_are_kept, patterns_are_kept};
