//! What the limits say of what unrolling asks for. There is no code here.
#![tactic(auto)]

mod laws;

pub use laws::asked_expressions_have_values;
