//! What expressions and operations read, and what of it has to be public in constant time.
#![tactic(auto)]

mod found;
mod laws;
mod looking;
mod operations;
mod part;

pub use found::Found;
pub use laws::readings_are_exact;
pub use operations::{assignment_reads, instruction_reads, left_demands, test_demands};
pub use part::{Part, Reason, Required};
