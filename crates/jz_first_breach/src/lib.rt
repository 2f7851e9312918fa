//! Each function has a first breach, or none: the labels with the fewest secrets are there.
#![tactic(auto)]

mod laws;

pub use laws::there_is_a_first_breach;
