//! The rows of the table of flags, RAX, RDX and RCX that an intrinsic has.
#![tactic(auto)]

mod addressing;
mod binary;
mod counting;
mod forms;
mod instructing;
mod leading;
mod products;
mod shaping;
mod testing;
mod unary;

pub use instructing::{begins_at, instruction_row};
