//! What typing gives of inline variables. There is no code here.
#![tactic(auto)]

mod laws;

pub use laws::inline_variables_are_typed;
