//! The runs of functions by those of their bodies; there is no code here.
#![tactic(auto)]

mod laws;

pub use laws::bodies_have_one_run;
