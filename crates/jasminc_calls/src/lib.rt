//! What an export function is run on: items as its arguments, and preconditions that hold of them.
#![tactic(auto)]

mod calls;
mod fitting;

pub use calls::Called;
pub use fitting::{Unfit, called_on};
