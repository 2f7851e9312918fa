//! A machine that runs bytes.
#![tactic(auto)]

mod bus;
mod laws;
mod machine;
mod step;

pub use bus::MemBus;
pub use laws::{a_fault_changes_nothing, an_end_stays, steps_after_steps, the_entry_stays};
pub use machine::Machine;
pub use step::Step;
pub use x64_decode::{Decoded, decode};
