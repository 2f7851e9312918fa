//! The expansion of a function is one. There is no code here.
#![tactic(auto)]

mod laws;

pub use jz_expansion::Expanded;
pub use laws::one_expansion;
