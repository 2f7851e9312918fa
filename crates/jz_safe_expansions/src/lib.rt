//! What is safe is never stuck: an export function of a typed text whose expansion has no alarm. There
//! is no code here.
#![tactic(auto)]

mod laws;

pub use laws::safe_is_never_stuck;
