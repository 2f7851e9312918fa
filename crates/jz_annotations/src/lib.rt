//! What annotations say of memory and of numbers: regions, ranges and alignments.
#![tactic(auto)]

mod cursor;
mod laws;
mod number;
mod precondition;
mod shapes;

pub use laws::says_what_is_written;
pub use precondition::Pre;
pub use shapes::said;
