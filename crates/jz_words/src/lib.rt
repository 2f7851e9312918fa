//! Words of 8, 16, 32 and 64 bits, each operation by its whole-number formula.
#![tactic(auto)]

mod operations;
mod readings;
mod size;
mod word;

pub use operations::{
    add_carry, and, has_bit, mul_signed, mul_wide, or, parity, residue, rol, ror, sar, shl, shr,
    sub_borrow, swap_bytes, xor,
};
pub use readings::{fits_four_bytes, reading};
pub use size::Size;
pub use word::Word;
