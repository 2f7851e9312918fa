//! The operations of the statements that write or read flags, RAX, RDX and RCX by themselves do
//! what the statements do; there is no code here.
#![tactic(auto)]

mod laws;

pub use laws::flag_rows_keep_runs;
