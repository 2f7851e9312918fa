//! The events of the machine that a function over variables shows, by what its runs leak.
#![tactic(auto)]

mod body;
mod frame;
mod laws;

pub use body::transformer;
pub use frame::FrameShape;
pub use laws::bodies_show_what_their_instructions_show;
