//! Instructions in an expanded function: where the conditions are met, they are not stuck.
#![tactic(auto)]

mod laws;
