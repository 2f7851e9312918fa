//! Which immediates have how many bytes, and the numbers of operations in opcodes and reg fields.

ghost use Rattle.std.specs.Prelude.{◌≡◌, ◌<◌};
ghost use Rattle.x64_insn.specs.Table.{immediate_by};
ghost use Rattle.x64_insn.specs.Chosen.{alu_number, condition_number, fits_bytes, one_number, one_opcode, opcode_for, shift_number, wide_number};

use x64_insn::{Alu, Cond, One, Shift, Size, Wide, fits_four_bytes};

/// Whether one byte holds a signed number.
pub(super) fn fits_byte(value: i64) -> bool
    ensures { result ≡ fits_bytes 1 value }
{
    (-128..128).contains(&value)
}

/// Whether two bytes hold a signed number.
fn fits_two_bytes(value: i64) -> bool
    ensures { result ≡ fits_bytes 2 value }
{
    (-0x8000..0x8000).contains(&value)
}

/// Whether an immediate of the operands' size holds a signed number.
pub(super) fn fits_immediate(size: Size, value: i64) -> bool
    ensures { result ≡ fits_bytes (immediate_by size) value }
{
    match size {
        Size::S8 => fits_byte(value),
        Size::S16 => fits_two_bytes(value),
        Size::S32 | Size::S64 => fits_four_bytes(i128::from(value)),
    }
}

/// The number of an operation in its opcodes and in the reg field.
pub(super) fn alu_number(alu: Alu) -> u8
    ensures value { result ≡ alu_number alu }
    ensures fits { result < 8 }
{
    match alu {
        Alu::Add => 0,
        Alu::Or => 1,
        Alu::Adc => 2,
        Alu::Sbb => 3,
        Alu::And => 4,
        Alu::Sub => 5,
        Alu::Xor => 6,
        Alu::Cmp | Alu::Test => 7,
    }
}

/// The number of a condition.
pub(super) fn condition_number(condition: Cond) -> u8
    ensures value { result ≡ condition_number condition }
    ensures fits { result < 16 }
{
    condition as u8
}

/// The number of a shift in the reg field.
pub(super) fn shift_number(shift: Shift) -> u8
    ensures value { result ≡ shift_number shift }
    ensures fits { result < 8 }
{
    match shift {
        Shift::Rol => 0,
        Shift::Ror => 1,
        Shift::Shl => 4,
        Shift::Shr => 5,
        Shift::Sar => 7,
    }
}

/// The number of a product or a quotient in the reg field.
pub(super) fn wide_number(wide: Wide) -> u8
    ensures value { result ≡ wide_number wide }
    ensures fits { result < 8 }
{
    match wide {
        Wide::Mul => 4,
        Wide::Imul => 5,
        Wide::Div => 6,
        Wide::Idiv => 7,
    }
}

/// The number of an operation on one operand in the reg field.
pub(super) fn one_number(one: One) -> u8
    ensures value { result ≡ one_number one }
    ensures fits { result < 8 }
{
    match one {
        One::Not => 2,
        One::Neg => 3,
        One::Inc => 0,
        One::Dec => 1,
    }
}

/// The first of its two opcodes.
pub(super) fn one_opcode(one: One) -> u8
    ensures value { result ≡ one_opcode one }
    ensures fits { result < 255 }
{
    match one {
        One::Not | One::Neg => 0xF6,
        One::Inc | One::Dec => 0xFE,
    }
}

/// The opcode of a pair for a size: the first has operands of one byte.
pub(super) fn opcode_for(size: Size, opcode: u8) -> u8
    requires { opcode < 255 }
    ensures { result ≡ opcode_for size opcode }
{
    match size {
        Size::S8 => opcode,
        Size::S16 | Size::S32 | Size::S64 => opcode + 1,
    }
}
