//! Which typed statements have operations by the rows of jz_row_operations; there is no code here.
#![tactic(auto)]

mod laws;

pub use laws::{assignments_have_operations, tests_have_operations, variables_have_homes};
