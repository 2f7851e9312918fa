//! An export function whose expansion has no alarm is never stuck on an input that meets its
//! preconditions. There is no code here.
#![tactic(auto)]

mod laws;

pub use laws::safe_functions_are_never_stuck;
