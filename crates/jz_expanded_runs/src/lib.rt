//! Each run of an export function of a typed text is followed by one of its expansion. There is no code
//! here.
#![tactic(auto)]

mod laws;

pub use laws::expansions_keep_runs;
