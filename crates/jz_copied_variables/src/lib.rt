//! The variables of a function whose calls are copies of what they call: each with its declaration,
//! arrays before an index alone, and those in registers before an integer. There is no code here.
#![tactic(auto)]

mod laws;

pub use laws::copies_have_variables;
