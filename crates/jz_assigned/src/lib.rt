//! Assignments of one value in an expanded function: where their conditions are met, they are not
//! stuck.
#![tactic(auto)]

mod laws;
