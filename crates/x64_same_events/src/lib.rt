//! Two runs of one code show the same after each number of steps. There is no code here.
#![tactic(auto)]

mod laws;

pub use laws::same_events;
