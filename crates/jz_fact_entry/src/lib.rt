//! Where a run of an expanded function begins on an input that meets its preconditions. There is no
//! code here.
#![tactic(auto)]

mod laws;

pub use laws::inputs_stand;
