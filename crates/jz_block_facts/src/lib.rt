//! Facts behind bodies, and at the heads of their loops.
#![tactic(auto)]

mod bodies;
mod laying;
mod looping;
mod single;
mod walk;

pub use bodies::{at_head, heads_of, holds_after, holds_behind};
pub use laying::{lay, meet_both, taken};
pub use looping::leave;
pub use single::{after_single, open_arm};
