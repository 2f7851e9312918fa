//! Which variables are live after each operation.
#![tactic(auto)]

mod straight;
mod tree;

pub use straight::{live_after, remove_all};
pub use tree::live;
