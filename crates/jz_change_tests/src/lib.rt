//! Tests of changes: what two of them make together, and what is printed of one. They stand apart
//! from what they test, since a crate with tests is proved twice.
#![tactic(auto)]

#[cfg(test)]
mod change_tests;
