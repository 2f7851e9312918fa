//! Tests of programs that are made of numbers. They stand apart from what they test, since a crate
//! with tests is proved twice.
#![tactic(auto)]

#[cfg(test)]
mod program_tests;
