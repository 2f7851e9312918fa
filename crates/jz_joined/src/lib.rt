//! From the parts of the compiler to correct compilation; there is no code here.
#![tactic(auto)]

mod laws;

pub use laws::{parts_are_correct, parts_carry_over};
