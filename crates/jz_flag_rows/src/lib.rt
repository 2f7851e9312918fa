//! The operations of the statements that write or read flags, RAX, RDX and RCX by themselves; there
//! is no code here.
#![tactic(auto)]

mod laws;

pub use laws::rows_are_apart;
