//! Operands and destinations of statements, and where the variables of a function are.
#![tactic(auto)]

mod homes;
mod operands;
mod sums;

pub use homes::{Home, Homes};
pub use operands::{Leaks, Operand, destination_of, operand_of};
pub use sums::{Found, Index, Term, Terms, address_of, displacement, index_of, scale, terms_of};
