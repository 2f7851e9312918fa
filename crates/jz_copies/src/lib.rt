//! What calls copy: the functions that a call can copy, and how many statements a function has
//! with all that it calls.
#![tactic(auto)]

mod callable;
mod counting;
mod extent;
mod walk;

pub use callable::Callable;
pub use extent::{CopyLimit, Extent};
pub use walk::copied_extent;
