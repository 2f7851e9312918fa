//! That copies of calls have the values that bodies with calls have. There is no code here.
#![tactic(auto)]

mod laws;

pub use laws::copies_fit;
