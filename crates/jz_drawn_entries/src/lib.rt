//! The labels before the first statement of a function.
#![tactic(auto)]

mod entering;

pub use entering::entry;
