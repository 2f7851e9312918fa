//! The first alarm of a function: the first condition in expanded order that the facts there don't
//! give.
#![tactic(auto)]

mod arms;
mod asking;
mod bodies;
mod walk;

pub use bodies::first_alarm;
