//! What a program has that was read from a text: its names are identifiers, and its assignments set
//! something or are calls. There is no code here.
#![tactic(auto)]

mod laws;

pub use laws::{assignments_set_or_call, names_are_identifiers, names_stay_identifiers};
