//! Tests of preconditions, by the annotations of small functions. They stand apart from what they
//! test, since a crate with tests is proved twice.
#![tactic(auto)]

#[cfg(test)]
mod annotation_tests;
