//! That functions are unrollable once their calls are copies. There is no code here.
#![tactic(auto)]

mod laws;

pub use laws::copies_unrollable;
