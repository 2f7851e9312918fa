//! Disassembly: the lines of the instructions that bytes are, and bytes from hexadecimal text.
#![tactic(auto)]

mod disassembly;
mod hexadecimal;
mod instructions;
mod laws;
mod names;
mod operands;

pub use disassembly::{Gap, GapKind, disasm};
pub use hexadecimal::bytes_of_hex;
pub use laws::{
    gaps_have_no_lines, hex_faults_give_no_bytes, one_disassembly, one_gap, one_hex_fault,
};
