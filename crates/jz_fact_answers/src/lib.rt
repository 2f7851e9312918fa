//! Whether a set of facts gives a fact: whether one of its facts says it. No memory is taken.
#![tactic(auto)]

mod giving;

pub use giving::gives;
