//! That compiled functions have starts. There is no code here.
#![tactic(auto)]

mod laws;

pub use laws::starts_exist;
