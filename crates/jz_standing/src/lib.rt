//! Where a run of an expanded function stands, and what expressions give there.
#![tactic(auto)]

mod laws;
