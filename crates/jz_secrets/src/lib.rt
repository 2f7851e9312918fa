//! Labels that come of others, and which of them are secret.
#![tactic(auto)]

mod edge;
mod graph;
mod reach;
mod secrets;

pub use edge::{Edge, Node};
pub use secrets::{Secrets, secrets_of};
