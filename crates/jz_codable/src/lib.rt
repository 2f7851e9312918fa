//! What a function over variables has to be to become machine code.
#![tactic(auto)]

mod parts;

pub use parts::is_short;
