//! The expansion of a typed text is within the limits; there is no code here.
#![tactic(auto)]

mod laws;

pub use laws::expansions_are_within;
