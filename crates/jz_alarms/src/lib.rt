//! The conditions that a function asks of the facts at each place, and its first alarm. There is no
//! code here.
#![tactic(auto)]

mod laws;

pub use laws::{conditions_keep_runs_calm, one_first_alarm};
