//! Machine code of functions over variables that is called; there is no code here.
#![tactic(auto)]

mod laws;

pub use laws::calls_do_as_the_body;
