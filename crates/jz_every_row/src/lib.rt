//! Which operations over variables each statement has, by both tables, and that bodies over
//! variables do what the source's do; there is no code here.
#![tactic(auto)]

mod laws;

pub use laws::lowering_keeps_runs;
