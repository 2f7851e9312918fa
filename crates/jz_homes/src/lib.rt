//! Where the values of a source run are in a run over variables, and what operands and destinations
//! of statements are there; there is no code here.
#![tactic(auto)]

mod laws;

pub use laws::{destinations_are_written, operands_are_read};
