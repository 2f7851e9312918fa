//! Which operations can be encoded, whatever places their variables get.
#![tactic(auto)]

mod encodable;
mod laws;

pub use encodable::can_encode;
pub use laws::encodable_at_both_ends;
