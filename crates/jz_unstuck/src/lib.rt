//! Where the conditions are met, expressions and tests of an expanded function are not stuck.
#![tactic(auto)]

mod laws;
