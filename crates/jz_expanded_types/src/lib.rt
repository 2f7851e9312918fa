//! The expansion of a function of a typed text, by typing. There is no code here.
#![tactic(auto)]

mod laws;

pub use laws::expansions_are_typed;
