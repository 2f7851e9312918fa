//! The first condition of an operation, of a test and of the results that a set of facts doesn't
//! give.
#![tactic(auto)]

mod accesses;
mod alarms;
mod cells;
mod lefts;
mod operations;
mod sizes;
mod terms;

pub use alarms::{Alarm, Target};
pub use operations::{asks_assignment, asks_instruction, asks_results, asks_test};
