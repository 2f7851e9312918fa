//! What constant time asks of an expanded function. There is no code here.
#![tactic(auto)]

mod laws;

pub use laws::fine_functions_are_fixed;
