//! What assignments and tests make of a set of facts.
#![tactic(auto)]

mod entry;
mod telling;
mod words;

pub use entry::at_entry;
pub use telling::{join, tell};
pub use words::{is_known, least_known, most_known, of_word, times_known, under_known};
