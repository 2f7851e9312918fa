//! The expansion of a typed text is ready for lowering; there is no code here.
#![tactic(auto)]

mod laws;

pub use laws::expansions_are_ready;
