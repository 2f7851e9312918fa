//! Labels where two arms meet.
#![tactic(auto)]

mod arms;

pub use arms::{Arm, end_arm, meet};
