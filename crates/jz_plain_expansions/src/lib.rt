//! What an expansion leaves of the statements of a typed text: no inline part but numbers and bools, and
//! no cell of an array in registers. There is no code here.
#![tactic(auto)]

mod laws;

pub use laws::expansions_are_plain;
