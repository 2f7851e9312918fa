//! What is found to be safe is never stuck in the run of its text. There is no code here.
#![tactic(auto)]

mod laws;

pub use laws::safe_is_never_stuck;
