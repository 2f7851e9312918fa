//! What compiled functions show on items, by their transformers: from the source's leakage to event
//! lines.
#![tactic(auto)]

mod laws;
mod leaking;

pub use jasminc_runs::{Ran, Unfit};
pub use laws::leaks_are_those_of_the_bytes;
pub use leaking::leak_function;
