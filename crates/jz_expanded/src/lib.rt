//! What the expansion leaves is expanded as lowering asks; there is no code here.
#![tactic(auto)]

mod laws;

pub use laws::values_are_expanded;
