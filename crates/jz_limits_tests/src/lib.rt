//! Tests of first limits, by small functions. They stand apart from what they test, since a crate
//! with tests is proved twice.
#![tactic(auto)]

#[cfg(test)]
mod limit_tests;
