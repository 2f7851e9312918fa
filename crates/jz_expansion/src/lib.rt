//! The expansion of an export function: one function without calls, loops that count, inline
//! variables and cells of register arrays, with what that makes of a leak; or the first limit.
#![tactic(auto)]

mod expanded;
mod expanding;

pub use expanded::Expanded;
pub use expanding::expand;
