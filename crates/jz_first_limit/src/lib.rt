//! The first limit of a function with all that it calls: by a walk over the copies that calls make,
//! and then by a walk in expanded order.
#![tactic(auto)]

mod first;
mod laws;
mod meeting;
mod met;
mod passing;
mod straight;
mod testing;
mod turns;

pub use first::{count_expanded, first_limit};
pub use jz_limits::Limit;
pub use laws::one_first_limit;
pub use met::Met;
