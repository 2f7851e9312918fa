//! What runs of compiled code have in common, whatever function it is: the registers at the start,
//! the steps up to the end, and the lines of events and results.
#![tactic(auto)]

mod starting;
mod stepping;
mod telling;

pub use starting::{CODE_BASE, RETURN_SLOT, start_state};
pub use stepping::{Finish, run_to_end};
pub use telling::{cut_text, write_events, write_results};
