//! The frame of a function: its stack variables, its saved registers, and the code around its body.
#![tactic(auto)]

mod frame;
mod laws;
mod laying;
mod naming;

pub use frame::{Framed, with_frame};
pub use laws::{a_function_does_what_its_body_does, stack_variables_stand_apart};
pub use laying::{FrameLimit, Layout, lay_out};
pub use naming::saved;
