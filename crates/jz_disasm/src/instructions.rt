//! Instructions, and a line of disassembly.

ghost use Rattle.std.specs.Prelude.{◌≡◌, ◌<◌, ◌+◌, ◌++◌, ◌^◌, OnOk, codes, length};
ghost use Rattle.std.specs.Fmt.{signed_decimal};
ghost use Rattle.jz_disasm.specs.Names.{cond_text, shift_text, sized_reg_text, suffix_text};
ghost use Rattle.jz_disasm.specs.Operands.{count_text, mem_text, operand_text, target_text};
ghost use Rattle.jz_disasm.specs.Instructions.{both_text, head_text, insn_text, line_text};
ghost use Rattle.jz_disasm.specs.Instructions.{reg_and_text};

use crate::names::{
    alu_name, cond_name, extend_name, one_name, shift_name, sized_reg_name, suffix, wide_name,
};
use crate::operands::{write_count, write_mem, write_offset, write_operand, write_target};
use jz_text::{write_digits, write_signed};
use std::alloc::{AllocError, Global};
use x64_insn::{Cond, Count, Insn, Mem, Operand, Reg, Shift, Size};

/// A mnemonic with its size.
#[tactic(auto, unfolding(crate::specs::Instructions::head_text))]
fn write_head(text: &mut Vec<u8>, name: &str, size: Size) -> Result<(), AllocError>
    ensures { OnOk result (text.new.items ≡ text.old.items ++ head_text name.now size) }
{
    text.extend_from_slice(name.as_bytes())?;
    text.extend_from_slice(suffix(size).as_bytes())?;
    text.extend_from_slice(b" ")
}

/// Two operands of a size.
#[tactic(auto, unfolding(crate::specs::Instructions::both_text))]
fn write_both(text: &mut Vec<u8>, size: Size, to: Operand, from: Operand) -> Result<(), AllocError>
    ensures { OnOk result (text.new.items ≡ text.old.items ++ both_text size to from) }
{
    write_operand(text, size, to)?;
    text.extend_from_slice(b", ")?;
    write_operand(text, size, from)
}

/// A register and an operand, each of a size.
#[tactic(auto, unfolding(crate::specs::Instructions::reg_and_text))]
fn write_reg_and(
    text: &mut Vec<u8>,
    to: Size,
    reg: Reg,
    from: Size,
    rm: Operand,
) -> Result<(), AllocError>
    ensures { OnOk result (text.new.items ≡ text.old.items ++ reg_and_text to reg from rm) }
{
    text.extend_from_slice(sized_reg_name(to, reg).as_bytes())?;
    text.extend_from_slice(b", ")?;
    write_operand(text, from, rm)
}

/// An operation on two operands.
fn write_binary(
    text: &mut Vec<u8>,
    name: &str,
    size: Size,
    to: Operand,
    from: Operand,
) -> Result<(), AllocError>
    ensures { OnOk result (text.new.items ≡ text.old.items
        ++ (head_text name.now size ++ both_text size to from)) }
{
    write_head(text, name, size)?;
    write_both(text, size, to, from)
}

/// An operation on one operand.
fn write_unary(text: &mut Vec<u8>, name: &str, size: Size, rm: Operand) -> Result<(), AllocError>
    ensures { OnOk result (text.new.items ≡ text.old.items
        ++ (head_text name.now size ++ operand_text size rm)) }
{
    write_head(text, name, size)?;
    write_operand(text, size, rm)
}

/// A move that extends an operand.
fn write_extend(
    text: &mut Vec<u8>,
    signed: bool,
    to: Size,
    from: Size,
    reg: Reg,
    rm: Operand,
) -> Result<(), AllocError>
    ensures { OnOk result (text.new.items ≡ text.old.items
        ++ insn_text 0 (Insn.Extend signed to from reg rm)) }
{
    write_head(text, extend_name(signed, from), to)?;
    write_reg_and(text, to, reg, from, rm)
}

fn write_lea(text: &mut Vec<u8>, reg: Reg, mem: Mem) -> Result<(), AllocError>
    ensures { OnOk result (text.new.items ≡ text.old.items ++ insn_text 0 (Insn.Lea reg mem)) }
{
    write_head(text, "lea", Size::S64)?;
    text.extend_from_slice(sized_reg_name(Size::S64, reg).as_bytes())?;
    text.extend_from_slice(b", ")?;
    write_mem(text, mem)
}

fn write_imul(text: &mut Vec<u8>, size: Size, reg: Reg, rm: Operand) -> Result<(), AllocError>
    ensures { OnOk result (text.new.items ≡ text.old.items ++ insn_text 0 (Insn.Imul size reg rm)) }
{
    write_head(text, "imul", size)?;
    write_reg_and(text, size, reg, size, rm)
}

fn write_imul_by(
    text: &mut Vec<u8>,
    size: Size,
    reg: Reg,
    rm: Operand,
    by: i32,
) -> Result<(), AllocError>
    ensures { OnOk result (text.new.items ≡ text.old.items
        ++ insn_text 0 (Insn.ImulBy size reg rm by)) }
{
    write_imul(text, size, reg, rm)?;
    text.extend_from_slice(b", ")?;
    write_signed(text, i64::from(by))
}

fn write_shift(
    text: &mut Vec<u8>,
    shift: Shift,
    size: Size,
    rm: Operand,
    count: Count,
) -> Result<(), AllocError>
    ensures { OnOk result (text.new.items ≡ text.old.items
        ++ insn_text 0 (Insn.Shift shift size rm count)) }
{
    write_unary(text, shift_name(shift), size, rm)?;
    text.extend_from_slice(b", ")?;
    write_count(text, count)
}

fn write_bswap(text: &mut Vec<u8>, size: Size, reg: Reg) -> Result<(), AllocError>
    ensures { OnOk result (text.new.items ≡ text.old.items ++ insn_text 0 (Insn.Bswap size reg)) }
{
    write_head(text, "bswap", size)?;
    text.extend_from_slice(sized_reg_name(size, reg).as_bytes())
}

fn write_set(text: &mut Vec<u8>, cond: Cond, rm: Operand) -> Result<(), AllocError>
    ensures { OnOk result (text.new.items ≡ text.old.items ++ insn_text 0 (Insn.Set cond rm)) }
{
    text.extend_from_slice(b"set")?;
    text.extend_from_slice(cond_name(cond).as_bytes())?;
    text.extend_from_slice(suffix(Size::S8).as_bytes())?;
    text.extend_from_slice(b" ")?;
    write_operand(text, Size::S8, rm)
}

fn write_cmov(
    text: &mut Vec<u8>,
    cond: Cond,
    size: Size,
    reg: Reg,
    rm: Operand,
) -> Result<(), AllocError>
    ensures { OnOk result (text.new.items ≡ text.old.items
        ++ insn_text 0 (Insn.Cmov cond size reg rm)) }
{
    text.extend_from_slice(b"cmov")?;
    text.extend_from_slice(cond_name(cond).as_bytes())?;
    text.extend_from_slice(suffix(size).as_bytes())?;
    text.extend_from_slice(b" ")?;
    write_reg_and(text, size, reg, size, rm)
}

fn write_jcc(
    alloc: Global,
    text: &mut Vec<u8>,
    cond: Cond,
    after: u32,
    displacement: i32,
) -> Result<(), AllocError>
    ensures { OnOk result (text.new.items ≡ text.old.items
        ++ (codes "j" ++ cond_text cond ++ codes " " ++ target_text after displacement)) }
{
    text.extend_from_slice(b"j")?;
    text.extend_from_slice(cond_name(cond).as_bytes())?;
    text.extend_from_slice(b" ")?;
    write_target(alloc, text, after, displacement)
}

fn write_jmp(
    alloc: Global,
    text: &mut Vec<u8>,
    after: u32,
    displacement: i32,
) -> Result<(), AllocError>
    ensures { OnOk result (text.new.items ≡ text.old.items
        ++ (codes "jmp " ++ target_text after displacement)) }
{
    text.extend_from_slice(b"jmp ")?;
    write_target(alloc, text, after, displacement)
}

fn write_call(
    alloc: Global,
    text: &mut Vec<u8>,
    after: u32,
    displacement: i32,
) -> Result<(), AllocError>
    ensures { OnOk result (text.new.items ≡ text.old.items
        ++ (codes "call " ++ target_text after displacement)) }
{
    text.extend_from_slice(b"call ")?;
    write_target(alloc, text, after, displacement)
}

/// An instruction, by the offset after it.
fn write_insn(alloc: Global, text: &mut Vec<u8>, after: u32, insn: Insn) -> Result<(), AllocError>
    ensures { OnOk result (text.new.items ≡ text.old.items ++ insn_text after insn) }
{
    match insn {
        Insn::Alu(alu, size, to, from) => write_binary(text, alu_name(alu), size, to, from),
        Insn::Mov(size, to, from) => write_binary(text, "mov", size, to, from),
        Insn::Extend {
            signed,
            to,
            from,
            reg,
            rm,
        } => write_extend(text, signed, to, from, reg, rm),
        Insn::Lea(reg, mem) => write_lea(text, reg, mem),
        Insn::One(one, size, rm) => write_unary(text, one_name(one), size, rm),
        Insn::Wide(wide, size, rm) => write_unary(text, wide_name(wide), size, rm),
        Insn::Imul(size, reg, rm) => write_imul(text, size, reg, rm),
        Insn::ImulBy(size, reg, rm, by) => write_imul_by(text, size, reg, rm, by),
        Insn::Shift(shift, size, rm, count) => write_shift(text, shift, size, rm, count),
        Insn::Bswap(size, reg) => write_bswap(text, size, reg),
        Insn::Cdq => text.extend_from_slice(b"cdq"),
        Insn::Cqo => text.extend_from_slice(b"cqo"),
        Insn::Set(cond, rm) => write_set(text, cond, rm),
        Insn::Cmov(cond, size, reg, rm) => write_cmov(text, cond, size, reg, rm),
        Insn::Jcc(cond, _, displacement) => write_jcc(alloc, text, cond, after, displacement),
        Insn::Jmp(_, displacement) => write_jmp(alloc, text, after, displacement),
        Insn::Call(displacement) => write_call(alloc, text, after, displacement),
        Insn::Ret => text.extend_from_slice(b"ret"),
    }
}

/// The line of an instruction, by its offset and its bytes.
#[tactic(auto, unfolding(crate::specs::Instructions::line_text))]
pub fn write_line(
    alloc: Global,
    text: &mut Vec<u8>,
    offset: u32,
    bytes: &[u8],
    insn: Insn,
) -> Result<(), AllocError>
    requires { offset + length bytes.now < 2 ^ 32 }
    ensures { OnOk result (text.new.items ≡ text.old.items ++ line_text offset bytes.now insn) }
{
    let after = offset + bytes.len() as u32;
    write_offset(alloc, text, offset)?;
    text.extend_from_slice(b" ")?;
    write_digits(alloc, text, bytes)?;
    text.extend_from_slice(b" ")?;
    write_insn(alloc, text, after, insn)?;
    text.extend_from_slice(b"\n")
}
