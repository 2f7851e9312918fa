//! What writes make of a set of facts.
#![tactic(auto)]

mod assigning;
mod instructing;
mod marks;
mod results;
mod writes;

pub use assigning::{after_assignment, assigned, assigned_if};
pub use instructing::after_instruction;
pub use jz_run_assign::whole_of;
pub use marks::after_mark;
pub use writes::{Gets, write, write_all};
