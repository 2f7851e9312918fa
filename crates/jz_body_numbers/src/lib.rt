//! The numbers that stand in expressions and in bodies, and the constants of a function.
#![tactic(auto)]

mod bodies;
mod expressions;
mod functions;

pub use bodies::numbers_of;
pub use expressions::{add_access, add_expr};
pub use functions::constants_in;
