//! Texts of numbers, places, bytes and registers, as the listing and the answers have them.
#![tactic(auto)]

mod numbers;
mod registers;

pub use numbers::{write_digits, write_number, write_signed, write_span};
pub use registers::reg_name;
