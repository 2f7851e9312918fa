//! What is judged to be constant time leaks alike. There is no code here.
#![tactic(auto)]

mod laws;

pub use laws::judged_functions_leak_alike;
