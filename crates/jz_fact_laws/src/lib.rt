//! What facts say of runs: the interval of an expression holds of its value, and what holds before a
//! statement or a test holds behind it. There is no code here.
#![tactic(auto)]

mod laws;

pub use laws::{facts_hold_behind_statements, values_are_as_facts_say};
