//! Intervals of words, what an operation gives where each operand lies in one, and the constants
//! that bound them.
#![tactic(auto)]

mod constants;
mod interval;

pub use constants::Constants;
pub use interval::{Interval, greatest_word, lower};
pub use x64_insn::Size;
