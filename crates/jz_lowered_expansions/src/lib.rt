//! Lowering refuses the expansion of a typed text at none of its statements, and for nothing but the
//! number of its variables. There is no code here.
#![tactic(auto)]

mod laws;

pub use laws::expansions_have_code;
