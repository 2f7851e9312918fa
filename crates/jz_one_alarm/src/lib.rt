//! The first alarm of a function does not depend on the order of its constants.
#![tactic(auto)]

mod laws;
