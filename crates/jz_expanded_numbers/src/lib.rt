//! The numbers in the body of an expanded function. There is no code here.
#![tactic(auto)]

mod laws;

pub use laws::numbers_of_expansions;
