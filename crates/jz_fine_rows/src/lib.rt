//! Typed assignments that the expansion leaves, by the pattern table: each is of a form of which the
//! facts and alarms speak. There is no code here.
#![tactic(auto)]

mod laws;

pub use laws::assignments_are_fine;
