//! Which actions can be encoded.

ghost use Rattle.std.specs.Prelude.{◌≡◌, ◌≤ℤ◌, ◌*ℤ◌, ◌^◌, ℕ, pos, negsuc};
ghost use Rattle.jz_words.specs.Sizes.{bytes_of};
ghost use Rattle.x64_insn.specs.declared.types.Reg.TheVariants.{Rax};
ghost use Rattle.x64_insn.specs.Table.{immediate_by};
ghost use Rattle.x64_insn.specs.Chosen as chosen;
ghost use Rattle.x64_insn.specs.Chosen.{fits_bytes};
ghost use Rattle.jz_operations.specs.Insns as of;
ghost use Rattle.jz_encodable.specs.Encodable.{is_spelled_at, can_encode as can_be_encoded};
ghost use Rattle.jz_encodable.specs.InnerOperands.{in_rax, at_slot, operand_at};

use jz_operations::{Action, Address, Arg, Cell};
use jz_words::{Size, fits_four_bytes};
use x64_insn::Alu;

/// As many bytes as so many cells have.
fn bytes_before(size: Size, cells: i32) -> i128
    ensures is { result ≡ pos (bytes_of size) *ℤ cells }
    ensures least { negsuc (2 ^ 40) ≤ℤ result }
    ensures most { result ≤ℤ pos (2 ^ 40) }
{
    let cells = i128::from(cells);
    match size {
        Size::S8 => cells,
        Size::S16 => 2 * cells,
        Size::S32 => 4 * cells,
        Size::S64 => 8 * cells,
    }
}

/// Whether the displacement of a cell has 32 bits, where its stack variable is so far above the
/// stack pointer.
fn is_near(cell: Cell, size: Size, slot: u32) -> bool
    ensures { result ≡ fits_bytes 4 (of.displacement (at_slot slot) cell size) }
{
    fits_four_bytes(i128::from(slot) + bytes_before(size, cell.offset))
}

/// Whether an index has a scale that has a field.
fn is_index(index: Option<(u32, u8)>) -> bool
    ensures { (slot : ℕ) → result ≡ chosen.is_index (of.index_of in_rax (at_slot slot) index) }
{
    match index {
        None => true,
        Some((_, scale)) => matches!(scale, 1 | 2 | 4 | 8),
    }
}

/// Whether an address has a spelling.
#[tactic(auto, using(crate::proofs::CodeLemmas::address_by))]
fn is_address(address: Address, slot: u32) -> bool
    ensures { result ≡ chosen.is_address (of.mem_of in_rax (at_slot slot) address) }
{
    is_index(address.index)
}

/// Whether an operand is a register or an address.
#[tactic(auto, using(crate::proofs::CodeLemmas::cell_by))]
fn is_rm(arg: Arg, size: Size, slot: u32) -> bool
    ensures { result ≡ chosen.is_rm (operand_at slot arg size) }
{
    match arg {
        Arg::Var(_) => true,
        Arg::Imm(_) => false,
        Arg::Mem(address) => is_address(address, slot),
        Arg::Cell(cell) => is_near(cell, size, slot),
        Arg::At(_, _) => true,
    }
}

fn is_register(arg: Arg) -> bool
    ensures { (slot : ℕ) (size : Size) → result ≡ chosen.is_register (operand_at slot arg size) }
{
    match arg {
        Arg::Var(_) => true,
        Arg::Imm(_) => false,
        Arg::Mem(_) => false,
        Arg::Cell(_) => false,
        Arg::At(_, _) => true,
    }
}

fn fits_byte(number: i64) -> bool
    ensures { result ≡ fits_bytes 1 number }
{
    (-128..128).contains(&number)
}

fn fits_two_bytes(number: i64) -> bool
    ensures { result ≡ fits_bytes 2 number }
{
    (-0x8000..0x8000).contains(&number)
}

/// Whether an immediate of operands of this size holds a number.
fn fits_immediate(size: Size, number: i64) -> bool
    ensures { result ≡ fits_bytes (immediate_by size) number }
{
    match size {
        Size::S8 => fits_byte(number),
        Size::S16 => fits_two_bytes(number),
        Size::S32 => fits_four_bytes(i128::from(number)),
        Size::S64 => fits_four_bytes(i128::from(number)),
    }
}

/// Whether the immediate of a move holds a number; that of a register of 64 bits holds any.
fn fits_mov(size: Size, to: Arg, number: i64) -> bool
    ensures { (slot : ℕ) → result
        ≡ fits_bytes (chosen.mov_length size (operand_at slot to size)) number }
{
    match size {
        Size::S8 => fits_immediate(Size::S8, number),
        Size::S16 => fits_immediate(Size::S16, number),
        Size::S32 => fits_immediate(Size::S32, number),
        Size::S64 => match to {
            Arg::Var(_) => true,
            Arg::Imm(_) => fits_immediate(Size::S64, number),
            Arg::Mem(_) => fits_immediate(Size::S64, number),
            Arg::Cell(_) => fits_immediate(Size::S64, number),
            Arg::At(_, _) => true,
        },
    }
}

fn is_test(op: Alu) -> bool
    ensures { result ≡ chosen.is_test op }
{
    matches!(op, Alu::Test)
}

/// An operation on a register or an address with a register or an immediate; and, but for TEST, on
/// a register with an address.
fn are_alu_operands(op: Alu, size: Size, to: Arg, from: Arg, slot: u32) -> bool
    ensures { result ≡ chosen.are_alu_operands op size (operand_at slot to size)
        (operand_at slot from size) }
{
    match from {
        Arg::Var(_) => is_rm(to, size, slot),
        Arg::Imm(number) => is_rm(to, size, slot) && fits_immediate(size, number),
        Arg::Mem(_) => !is_test(op) && is_register(to) && is_rm(from, size, slot),
        Arg::Cell(_) => !is_test(op) && is_register(to) && is_rm(from, size, slot),
        Arg::At(_, _) => is_rm(to, size, slot),
    }
}

/// The operands of MOV.
fn are_mov_operands(size: Size, to: Arg, from: Arg, slot: u32) -> bool
    ensures { result ≡ chosen.are_mov_operands size (operand_at slot to size)
        (operand_at slot from size) }
{
    match from {
        Arg::Var(_) => is_rm(to, size, slot),
        Arg::Imm(number) => is_rm(to, size, slot) && fits_mov(size, to, number),
        Arg::Mem(_) => is_register(to) && is_rm(from, size, slot),
        Arg::Cell(_) => is_register(to) && is_rm(from, size, slot),
        Arg::At(_, _) => is_rm(to, size, slot),
    }
}

/// A source that is smaller than the destination; 32 bits are extended with their sign alone.
fn is_extension(signed: bool, to: Size, from: Size) -> bool
    ensures { result ≡ chosen.is_extension signed to from }
{
    match (to, from) {
        (Size::S16 | Size::S32 | Size::S64, Size::S8) => true,
        (Size::S32 | Size::S64, Size::S16) => true,
        (Size::S64, Size::S32) => signed,
        _ => false,
    }
}

/// An extension; that of 32 bits by zeros is a move.
#[tactic(auto, unfolding(x64_insn::specs::Chosen::is_spelled))]
fn is_extended(signed: bool, to: Size, from: Size, rm: Arg, slot: u32) -> bool
    ensures { result ≡ chosen.is_spelled (of.extend_of signed to from Rax
        (operand_at slot rm from)) }
{
    let extended = is_extension(signed, to, from) && is_rm(rm, from, slot);
    if signed {
        return extended;
    }
    match to {
        Size::S8 => extended,
        Size::S16 => extended,
        Size::S32 => extended,
        Size::S64 => match from {
            Size::S8 => extended,
            Size::S16 => extended,
            Size::S32 => are_mov_operands(Size::S32, Arg::Var(0), rm, slot),
            Size::S64 => extended,
        },
    }
}

fn is_no_byte(size: Size) -> bool
    ensures { result ≡ chosen.is_no_byte size }
{
    !matches!(size, Size::S8)
}

/// Whether an action has a spelling with each variable in RAX, and each stack variable so far above
/// the stack pointer.
#[tactic(auto, unfolding(x64_insn::specs::Chosen::is_spelled))]
fn is_spelled(action: Action, slot: u32) -> bool
    ensures { result ≡ is_spelled_at slot action }
{
    match action {
        Action::Alu(op, size, to, from, _) => are_alu_operands(op, size, to, from, slot),
        Action::Mov(size, to, from) => are_mov_operands(size, to, from, slot),
        Action::Extend {
            signed,
            to,
            from,
            var: _,
            rm,
        } => is_extended(signed, to, from, rm, slot),
        Action::Lea(_, address) => is_address(address, slot),
        Action::One(_, size, rm) => is_rm(rm, size, slot),
        Action::Wide(_, size, _, _, rm) => is_no_byte(size) && is_rm(rm, size, slot),
        Action::Imul(size, _, rm) => is_no_byte(size) && is_rm(rm, size, slot),
        Action::ImulBy(size, _, rm, number) => {
            is_no_byte(size) && is_rm(rm, size, slot) && fits_immediate(size, i64::from(number))
        }
        // A count is a byte.
        Action::Shift(_, size, rm, _) => is_rm(rm, size, slot),
        Action::ShiftBy(_, size, rm, _) => is_rm(rm, size, slot),
        Action::Bswap(size, _) => matches!(size, Size::S32 | Size::S64),
        Action::Sign(_, _, _) => true,
        Action::Set(_, rm) => is_rm(rm, Size::S8, slot),
        Action::Cmov(_, size, _, rm) => is_no_byte(size) && is_rm(rm, size, slot),
    }
}

/// Whether an action can be encoded, whatever registers but RSP its variables get, and wherever in
/// a frame its stack variables are.
pub fn can_encode(action: Action) -> bool
    ensures { result ≡ can_be_encoded action }
{
    is_spelled(action, 0) && is_spelled(action, 65_536)
}
