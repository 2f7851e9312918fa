//! Tests of frames, linear code and bytes, and of functions over variables.
#![tactic(auto)]

#[cfg(test)]
mod byte_tests;
#[cfg(test)]
mod frame_tests;
#[cfg(test)]
mod function_tests;
