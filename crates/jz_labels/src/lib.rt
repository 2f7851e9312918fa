//! Constant time: labels of variables along a body, what has to be public, and the first breach.
//! There is no code here.
#![tactic(auto)]

mod laws;

pub use laws::{labels_or_a_breach, more_public_makes_more_public, one_first_breach};
