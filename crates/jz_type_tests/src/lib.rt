//! Tests of the whole language, from the outside and its tokens to typing, by texts and by tables.
//! They stand apart from what they test, since a crate with tests is proved twice.
#![tactic(auto)]

#[cfg(test)]
mod integer_tests;
#[cfg(test)]
mod lex_tests;
#[cfg(test)]
mod names;
#[cfg(test)]
mod outside_tests;
#[cfg(test)]
mod parse_tests;
#[cfg(test)]
mod pattern_tests;
#[cfg(test)]
mod statement_tests;
#[cfg(test)]
mod tree_tests;
#[cfg(test)]
mod typing_tests;
#[cfg(test)]
mod worked_tests;
