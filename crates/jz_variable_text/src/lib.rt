//! The text of a variable of an expansion.
#![tactic(auto)]

mod variables;

pub use variables::{push_variable, write_variable};
