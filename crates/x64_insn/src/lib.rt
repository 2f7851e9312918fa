//! Instructions of x86-64: their parts, what each does, and their spellings.
#![tactic(auto)]

mod answer;
mod arithmetic;
mod bus;
mod conditions;
mod effects;
mod jumps;
mod laws;
mod moves;
mod operands;
mod products;
mod results;
mod shifts;
pub mod table;
mod types;

pub use answer::{Answer, alu_answer, one_answer};
pub use bus::Bus;
pub use effects::effect;
pub use jz_words::{
    Size, Word, add_carry, and, fits_four_bytes, has_bit, mul_signed, mul_wide, or, parity,
    reading, residue, rol, ror, sar, shl, shr, sub_borrow, swap_bytes, xor,
};
pub use laws::{
    add_shows_its_sum, bad_address_is_an_invalid_byte, conditions_stand_at_their_numbers,
    faults_change_nothing, operations_stand_at_their_numbers, registers_stand_at_their_numbers,
    sub_shows_its_difference, xor_shows_different_bits,
};
pub use products::{
    DoubleAnswer, low_product_answer, product_answer, quotient_answer, signed_product_answer,
    signed_quotient_answer,
};
pub use results::{
    low_product_is_low, product_is_whole, product_marks_overflow, quotient_divides,
    quotient_is_missed, signed_product_is_whole, signed_product_marks_overflow,
    signed_quotient_divides, signed_quotient_is_missed,
};
pub use shifts::shift_answer;
pub use types::{
    Alu, Base, Cond, Count, FaultKind, Flag, FlagVal, Insn, Mem, One, Operand, Place, Reg, Shift,
    State, StepLeak, Wide, Width,
};
