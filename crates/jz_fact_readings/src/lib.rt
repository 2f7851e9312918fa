//! What a set of facts says of expressions: their intervals, and what they are multiples of. No
//! memory is taken.
#![tactic(auto)]

mod known;
mod multiples;
mod sides;
mod times;
mod walk;

pub use known::Knows;
pub use multiples::is_multiple;
pub use times::Times;
pub use walk::interval;
