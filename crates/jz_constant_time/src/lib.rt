//! Constant time of compiled functions. There is no code here.
#![tactic(auto)]

mod laws;

pub use laws::constant_time_carries_over;
