//! That compiled functions of a text can be listed: their names are names, their preconditions are
//! over names, what is told of constant time is the name of a variable, and their numbers have the
//! sizes of their types.
#![tactic(auto)]

mod laws;
mod numbers;

pub use laws::correct_functions_can_be_listed;
pub use numbers::functions_are_sized;
