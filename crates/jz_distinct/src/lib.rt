//! The variables of a function whose calls are copies differ; there is no code here.
#![tactic(auto)]

mod laws;

pub use laws::copies_differ;
