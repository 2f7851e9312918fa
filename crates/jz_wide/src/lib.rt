//! Numbers below 2 to the 192, and sums of numbers that are added and taken away. No memory is taken.
#![tactic(auto)]

mod numbers;
mod wide;

pub use numbers::Numbers;
pub use wide::{Wide, total};
