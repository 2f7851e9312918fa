//! A statement of flags, RAX, RDX and RCX has one list of operations, and a test of a flag one
//! condition; there is no code here.
#![tactic(auto)]

mod laws;

pub use laws::one_flag_lowering;
