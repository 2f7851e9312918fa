//! An expanded function without an alarm is never stuck on an input that meets its preconditions.
//! There is no code here.
#![tactic(auto)]

mod laws;

pub use laws::safe_bodies_are_never_stuck;
