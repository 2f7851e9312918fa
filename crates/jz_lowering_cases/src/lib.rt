//! What the cases of operations over variables show of the frame; there is no code here.
#![tactic(auto)]

mod laws;

pub use laws::lowered_cases_stay;
