//! Typing: a program in which no rule fails, or the first fault.
#![tactic(auto)]

mod checking;
mod fault;
mod functions;
mod laws;
mod lengths;
mod rows;
mod typed;

pub use checking::check;
pub use fault::{TypeFault, TypeRule};
pub use laws::{no_fault_of_a_typed, one_fault, statements_have_rows, variables_are_declared};
pub use typed::Typed;
