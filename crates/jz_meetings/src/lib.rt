//! How destinations and operands meet, by their trees, and what passes keep of it. There is no code
//! here.
#![tactic(auto)]

mod laws;

pub use laws::meetings_are_kept;
