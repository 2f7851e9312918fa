//! What the rows of the pattern table say of the expressions that match them; there is no code
//! here.
#![tactic(auto)]

mod laws;

pub use laws::rows_fix_numbers;
