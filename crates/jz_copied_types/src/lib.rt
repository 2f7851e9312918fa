//! A function whose calls are copies of what they call, by typing. There is no code here.
#![tactic(auto)]

mod laws;

pub use laws::copies_are_typed;
