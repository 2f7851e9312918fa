//! Which instructions have a spelling.

ghost use Rattle.std.specs.Prelude.{◌≡◌};
ghost use Rattle.x64_insn.specs.Chosen.{are_alu_operands, are_mov_operands, fits_bytes, has_byte_order, is_address, is_count, is_extension, is_index, is_no_byte, is_rm, is_spelled, mov_length};
ghost use Rattle.x64_insn.specs.Table.{width_length};

use crate::numbers::{fits_byte, fits_immediate};
use x64_insn::table::number_of;
use x64_insn::{Alu, Base, Insn, Mem, Operand, Reg, Size, Width};

/// An index that has a number, with a scale that has a field: the number of RSP stands for none.
fn is_index(index: Option<(Reg, u8)>) -> bool
    ensures { result ≡ is_index index }
{
    match index {
        Some((reg, scale)) => number_of(reg) != 4 && matches!(scale, 1 | 2 | 4 | 8),
        None => true,
    }
}

/// An address that a spelling can name: beside RIP there is no index.
fn is_address(mem: Mem) -> bool
    ensures { result ≡ is_address mem }
{
    match mem.base {
        Base::Rip => mem.index.is_none(),
        Base::Reg(_) | Base::Absent => is_index(mem.index),
    }
}

/// A register or an address.
fn is_rm(operand: Operand) -> bool
    ensures { result ≡ is_rm operand }
{
    match operand {
        Operand::Reg(_) => true,
        Operand::Imm(_) => false,
        Operand::Mem(mem) => is_address(mem),
    }
}

/// A register or an address with a register or an immediate; and, but for TEST, a register with an
/// address.
fn are_alu_operands(alu: Alu, size: Size, to: Operand, from: Operand) -> bool
    ensures { result ≡ are_alu_operands alu size to from }
{
    match from {
        Operand::Reg(_) => is_rm(to),
        Operand::Imm(value) => is_rm(to) && fits_immediate(size, value),
        Operand::Mem(mem) => {
            !matches!(alu, Alu::Test) && matches!(to, Operand::Reg(_)) && is_address(mem)
        }
    }
}

/// Whether MOV has an immediate of so many bits: a register of 64 has any.
fn fits_mov(size: Size, to: Operand, value: i64) -> bool
    ensures { result ≡ fits_bytes (mov_length size to) value }
{
    match (size, to) {
        (Size::S64, Operand::Reg(_)) => true,
        _ => fits_immediate(size, value),
    }
}

/// The operands of MOV.
fn are_mov_operands(size: Size, to: Operand, from: Operand) -> bool
    ensures { result ≡ are_mov_operands size to from }
{
    match from {
        Operand::Reg(_) => is_rm(to),
        Operand::Imm(value) => is_rm(to) && fits_mov(size, to, value),
        Operand::Mem(mem) => matches!(to, Operand::Reg(_)) && is_address(mem),
    }
}

/// A source that is smaller than the destination; 32 bits are extended with their sign alone.
fn is_extension(signed: bool, to: Size, from: Size) -> bool
    ensures { result ≡ is_extension signed to from }
{
    match (to, from) {
        (Size::S16 | Size::S32 | Size::S64, Size::S8) => true,
        (Size::S32 | Size::S64, Size::S16) => true,
        (Size::S64, Size::S32) => signed,
        _ => false,
    }
}

/// More than one byte.
fn is_no_byte(size: Size) -> bool
    ensures { result ≡ is_no_byte size }
{
    !matches!(size, Size::S8)
}

/// Whether the displacement of a jump fits its width.
fn fits_width(width: Width, disp: i32) -> bool
    ensures { result ≡ fits_bytes (width_length width) disp }
{
    match width {
        Width::Rel8 => fits_byte(i64::from(disp)),
        Width::Rel32 => true,
    }
}

/// Whether an instruction has a spelling.
#[tactic(auto, unfolding(x64_insn::specs::Chosen::is_spelled))]
pub(super) fn is_spelled(insn: Insn) -> bool
    ensures { result ≡ is_spelled insn }
{
    match insn {
        Insn::Alu(alu, size, to, from) => are_alu_operands(alu, size, to, from),
        Insn::Mov(size, to, from) => are_mov_operands(size, to, from),
        Insn::Extend {
            signed,
            to,
            from,
            reg: _,
            rm,
        } => is_extension(signed, to, from) && is_rm(rm),
        Insn::Lea(_, mem) => is_address(mem),
        Insn::One(_, _, rm) | Insn::Set(_, rm) => is_rm(rm),
        Insn::Wide(_, size, rm) | Insn::Imul(size, _, rm) | Insn::Cmov(_, size, _, rm) => {
            is_no_byte(size) && is_rm(rm)
        }
        Insn::ImulBy(size, _, rm, value) => {
            is_no_byte(size) && is_rm(rm) && fits_immediate(size, i64::from(value))
        }
        // A count is a byte.
        Insn::Shift(_, _, rm, _) => is_rm(rm),
        Insn::Bswap(size, _) => matches!(size, Size::S32 | Size::S64),
        Insn::Jcc(_, width, disp) => fits_width(width, disp),
        Insn::Jmp(width, disp) => fits_width(width, disp),
        // Any displacement of 32 bits fits.
        Insn::Call(_) | Insn::Cdq | Insn::Cqo | Insn::Ret => true,
    }
}
