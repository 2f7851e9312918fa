//! Functions of a text that are constant time leak the same. There is no code here.
#![tactic(auto)]

mod laws;

pub use laws::judged_functions_leak_the_same;
