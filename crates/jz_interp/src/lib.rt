//! The interpreter: the run of a typed program's function, forward, with what it leaks.
#![tactic(auto)]

mod arms;
mod code;
mod counters;
mod ends;
mod functions;
mod interpreting;
mod outcome;
mod parts;
mod running;
mod straight;
mod taking;

pub use interpreting::interpret;
pub use outcome::{Input, Outcome};
pub use taking::takes;
