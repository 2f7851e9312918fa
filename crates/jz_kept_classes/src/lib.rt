//! The classes of operands and results stay through the passes of an expansion. There is no code here.
#![tactic(auto)]

mod laws;

pub use laws::classes_are_kept;
