//! Instructions that a statement names: the results that each leaves, and the left sides that get
//! them.
#![tactic(auto)]

mod dispatching;
mod instructing;
mod operands;
mod results;
mod rows;
mod sizes;
mod words;

pub use instructing::instruct;
pub use sizes::intrinsic_size;
