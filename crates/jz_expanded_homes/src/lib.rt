//! The homes of the variables of an expansion; there is no code here.
#![tactic(auto)]

mod laws;

pub use laws::expansions_have_homes;
