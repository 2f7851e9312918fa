//! The homes of declared variables by the declarations; there is no code here.
#![tactic(auto)]

mod laws;

pub use laws::homes_are_declared;
