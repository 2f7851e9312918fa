//! The lines of a listing, read one by one.
#![tactic(auto)]

mod cursor;
mod events;
mod frames;
mod laws;
mod leakage;
mod line;
mod reading;
mod words;

pub use laws::one_line;
pub use line::Line;
pub use reading::read_line;
