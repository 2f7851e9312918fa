//! The variables of a function whose calls are copies of what they call, in the order in which the
//! text declares them.
#![tactic(auto)]

mod frame;

pub use frame::frame_vars;
