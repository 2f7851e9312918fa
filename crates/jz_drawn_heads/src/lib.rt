//! The scalars that a loop sets, their labels at its head, and what comes back to these.
#![tactic(auto)]

mod heads;

pub use heads::{Head, Target, come_back, scalars_set, split, turn_sets};
