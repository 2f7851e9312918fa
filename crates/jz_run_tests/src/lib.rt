//! Tests of values and runs of the whole language, by tables and by small functions. They stand
//! apart from what they test, since a crate with tests is proved twice.
#![tactic(auto)]

#[cfg(test)]
mod operator_tests;
#[cfg(test)]
mod run_tests;
#[cfg(test)]
mod value_tests;
