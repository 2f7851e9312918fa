//! Tests of the events of functions over variables.
#![tactic(auto)]

#[cfg(test)]
mod event_tests;
