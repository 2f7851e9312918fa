//! What is constant time leaks the same, in the expansion and in the text. There is no code here.
#![tactic(auto)]

mod laws;

pub use laws::constant_functions_leak_the_same;
