//! What holds of the leaks of runs in any language; there is no code here.
#![tactic(auto)]

mod laws;

pub use laws::{Language, leaks_hold_the_cuts_of_runs};
