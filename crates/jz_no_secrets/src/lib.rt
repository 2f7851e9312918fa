//! What is compiled of a constant-time function shows nothing secret. There is no code here.
#![tactic(auto)]

mod laws;

pub use laws::compiled_functions_show_nothing_secret;
