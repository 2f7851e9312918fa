//! Constant time and leaks: two runs that agree on what is public leak the same. There is no code
//! here.
#![tactic(auto)]

mod laws;

pub use laws::constant_time_leaks_the_same;
