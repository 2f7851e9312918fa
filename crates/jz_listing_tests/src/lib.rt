//! Tests of the reading of listings: lines, listings that are cut, and what is nested deep. They
//! stand apart from what they test, since a crate with tests is proved twice.
#![tactic(auto)]

#[cfg(test)]
mod line_tests;
#[cfg(test)]
mod listing_tests;
