//! The preconditions of an export function: what its annotations ask, and which of them are
//! refused.
#![tactic(auto)]

mod judging;
mod laws;
mod least;
mod naming;
mod parameters;
mod stated;
mod table;

pub use judging::{preconditions, refused};
pub use jz_annotations::Pre;
pub use laws::{least_arguments_meet, least_is_permitted};
pub use least::Interval;
