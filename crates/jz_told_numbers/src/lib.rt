//! Two runs of one body that leak the same behind a pass of the expansion leaked the same before:
//! what a pass leaves of an item's numbers tells all of them. There is no code here.
#![tactic(auto)]

mod laws;

pub use laws::passes_tell_all_numbers;
