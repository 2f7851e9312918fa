//! What a body becomes where loops are unrolled is one. There is no code here.
#![tactic(auto)]

mod laws;

pub use laws::one_unrolling;
