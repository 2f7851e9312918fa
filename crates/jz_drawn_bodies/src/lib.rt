//! The drawing of arms, of loops and of a whole body, and the first breach that it shows. There is no
//! code here.
#![tactic(auto)]

mod laws;

pub use laws::{arms_are_drawn, first_asked_is_first_breach, loops_are_drawn};
