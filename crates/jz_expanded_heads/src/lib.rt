//! The parameters and the results of the expansion of an export function. There is no code here.
#![tactic(auto)]

mod laws;

pub use laws::heads_are_fine;
