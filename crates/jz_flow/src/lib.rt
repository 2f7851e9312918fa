//! Facts along a structured program, whatever its facts are: what holds behind each statement, by
//! kept sets at loops, and the first condition that is not met. There is no code here.
#![tactic(auto)]

mod laws;

pub use laws::{Analysis, facts_hold_along_runs};
