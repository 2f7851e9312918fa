//! What typing gives of the bodies of functions and of their calls: what is read and set, and which
//! arrays a call shares. There is no code here.
#![tactic(auto)]

mod laws;

pub use laws::bodies_are_typed;
