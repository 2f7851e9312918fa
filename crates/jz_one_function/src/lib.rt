//! A function has one function over variables; there is no code here.
#![tactic(auto)]

mod laws;

pub use laws::one_function;
