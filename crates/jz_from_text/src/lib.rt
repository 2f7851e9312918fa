//! Correct compilation of export functions of typed texts; there is no code here.
#![tactic(auto)]

mod laws;

pub use laws::typed_functions_carry_over;
