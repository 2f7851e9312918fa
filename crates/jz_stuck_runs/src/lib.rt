//! Why runs of typed programs are stuck for want of a value, and at which size they do instructions;
//! there is no code here.
#![tactic(auto)]

mod laws;

pub use laws::{instructions_have_a_size, stuck_runs_lack_a_value};
