//! Where the variables of a function are: a variable or a cell of a stack variable for each.
#![tactic(auto)]

mod homing;

pub use homing::{Homing, homing_of};
pub use jz_operands::Homes;
