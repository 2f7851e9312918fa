//! What a function without an alarm says of its indices; there is no code here.
#![tactic(auto)]

mod laws;

pub use laws::indices_are_inside;
