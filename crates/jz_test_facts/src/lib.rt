//! What tests with their answers make of a set of facts.
#![tactic(auto)]

mod after;
mod telling;

pub use after::after_test;
