//! What is given of a function by its text and its preconditions: its constants, its parameters
//! with their ranges and alignments, its regions.
#![tactic(auto)]

mod functions;
mod parameters;
mod regions;
mod stating;

pub use functions::given_of;
pub use stating::{multiple_of, range_of};
