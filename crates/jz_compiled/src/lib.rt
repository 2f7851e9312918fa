//! Correct compilation of functions of the whole language; there is no code here.
#![tactic(auto)]

mod laws;

pub use laws::printed_preconditions_are_declared;
