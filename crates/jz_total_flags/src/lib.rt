//! Which typed statements have operations, by both tables; there is no code here.
#![tactic(auto)]

mod laws;

pub use laws::{
    assignments_have_operations, bodies_are_lowered, instructions_have_operations,
    tests_have_operations,
};
