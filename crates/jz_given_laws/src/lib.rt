//! What is given of functions of typed programs.
#![tactic(auto)]

mod laws;

pub use laws::parameters_of_typed_programs;
