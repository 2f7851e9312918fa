//! Operands.

ghost use Rattle.std.specs.Prelude.{◌≡◌, ◌++◌, OnOk};
ghost use Rattle.jz_disasm.specs.Operands.{added_text, count_text, index_text, mem_text};
ghost use Rattle.jz_disasm.specs.Operands.{more_text, offset_text, operand_text, plus_text};
ghost use Rattle.jz_disasm.specs.Operands.{sum_text, target_text};

use crate::names::sized_reg_name;
use jz_text::{reg_name, write_digits, write_number, write_signed};
use std::alloc::{AllocError, Global};
use x64_insn::{Base, Count, Mem, Operand, Reg, Size, residue};

/// An offset in eight hexadecimal digits.
#[tactic(auto, unfolding(crate::specs::Operands::offset_text))]
pub fn write_offset(alloc: Global, text: &mut Vec<u8>, offset: u32) -> Result<(), AllocError>
    ensures { OnOk result (text.new.items ≡ text.old.items ++ offset_text offset) }
{
    write_digits(alloc, text, &offset.to_be_bytes())
}

/// Where a jump goes, by the offset after it.
#[tactic(auto, unfolding(crate::specs::Operands::target_text))]
pub fn write_target(
    alloc: Global,
    text: &mut Vec<u8>,
    after: u32,
    displacement: i32,
) -> Result<(), AllocError>
    ensures { OnOk result (text.new.items ≡ text.old.items ++ target_text after displacement) }
{
    let target = residue(Size::S32, after as i128 + displacement as i128).bits();
    write_offset(alloc, text, target as u32)
}

fn plus(displacement: i32) -> &'static str
    ensures { result.now ≡ plus_text displacement }
{
    if displacement < 0 { "" } else { "+" }
}

/// A displacement with its sign, whichever it is.
#[tactic(auto, unfolding(crate::specs::Operands::added_text))]
fn write_added(text: &mut Vec<u8>, displacement: i32) -> Result<(), AllocError>
    ensures { OnOk result (text.new.items ≡ text.old.items ++ added_text displacement) }
{
    text.extend_from_slice(plus(displacement).as_bytes())?;
    write_signed(text, i64::from(displacement))
}

/// The same, but nothing for 0.
#[tactic(auto, unfolding(crate::specs::Operands::more_text))]
fn write_more(text: &mut Vec<u8>, displacement: i32) -> Result<(), AllocError>
    ensures { OnOk result (text.new.items ≡ text.old.items ++ more_text displacement) }
{
    if displacement == 0 {
        return Ok(());
    }
    write_added(text, displacement)
}

#[tactic(auto, unfolding(crate::specs::Operands::index_text))]
fn write_index(text: &mut Vec<u8>, reg: Reg, scale: u8) -> Result<(), AllocError>
    ensures { OnOk result (text.new.items ≡ text.old.items ++ index_text reg scale) }
{
    write_number(text, u64::from(scale))?;
    text.extend_from_slice(b"*")?;
    text.extend_from_slice(reg_name(reg).as_bytes())
}

/// The sum that an address is.
#[tactic(auto, unfolding(crate::specs::Operands::sum_text))]
fn write_sum(text: &mut Vec<u8>, mem: Mem) -> Result<(), AllocError>
    ensures { OnOk result
        (text.new.items ≡ text.old.items ++ sum_text mem.base mem.index mem.disp) }
{
    match (mem.base, mem.index) {
        (Base::Absent, None) => write_signed(text, i64::from(mem.disp)),
        (Base::Absent, Some((reg, scale))) => {
            write_index(text, reg, scale)?;
            write_more(text, mem.disp)
        }
        (Base::Reg(base), None) => {
            text.extend_from_slice(reg_name(base).as_bytes())?;
            write_more(text, mem.disp)
        }
        (Base::Reg(base), Some((reg, scale))) => {
            text.extend_from_slice(reg_name(base).as_bytes())?;
            text.extend_from_slice(b"+")?;
            write_index(text, reg, scale)?;
            write_more(text, mem.disp)
        }
        (Base::Rip, _) => {
            text.extend_from_slice(b"rip")?;
            write_added(text, mem.disp)
        }
    }
}

/// An address.
#[tactic(auto, unfolding(crate::specs::Operands::mem_text))]
pub fn write_mem(text: &mut Vec<u8>, mem: Mem) -> Result<(), AllocError>
    ensures { OnOk result (text.new.items ≡ text.old.items ++ mem_text mem) }
{
    text.extend_from_slice(b"[")?;
    write_sum(text, mem)?;
    text.extend_from_slice(b"]")
}

/// An operand of a size.
#[tactic(auto, unfolding(crate::specs::Operands::operand_text))]
pub fn write_operand(text: &mut Vec<u8>, size: Size, operand: Operand) -> Result<(), AllocError>
    ensures { OnOk result (text.new.items ≡ text.old.items ++ operand_text size operand) }
{
    match operand {
        Operand::Reg(reg) => text.extend_from_slice(sized_reg_name(size, reg).as_bytes()),
        Operand::Imm(number) => write_signed(text, number),
        Operand::Mem(mem) => write_mem(text, mem),
    }
}

/// How far a shift goes.
#[tactic(auto, unfolding(crate::specs::Operands::count_text))]
pub fn write_count(text: &mut Vec<u8>, count: Count) -> Result<(), AllocError>
    ensures { OnOk result (text.new.items ≡ text.old.items ++ count_text count) }
{
    match count {
        Count::Imm(count) => write_number(text, u64::from(count)),
        Count::Cl => text.extend_from_slice(b"cl"),
    }
}
