//! How long a body over variables is beside the body of the source; there is no code here.
#![tactic(auto)]

mod laws;

pub use laws::bodies_are_three_times_as_long;
