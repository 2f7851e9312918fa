//! Which variables the statements of an expansion name; there is no code here.
#![tactic(auto)]

mod laws;

pub use laws::expansions_name_the_same;
