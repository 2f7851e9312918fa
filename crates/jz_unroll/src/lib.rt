//! Loops of known bounds become their rounds, and inline expressions their values.
#![tactic(auto)]

mod laws;

pub use laws::{inline_expressions_are_values, unrolled_bodies_keep_runs};
