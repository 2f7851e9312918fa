//! Names of sizes, registers, operations and conditions.

ghost use Rattle.std.specs.Prelude.{◌≡◌};
ghost use Rattle.jz_disasm.specs.Names.{alu_text, byte_text, cond_text, doubleword_text};
ghost use Rattle.jz_disasm.specs.Names.{extend_text, one_text, shift_text, sized_reg_text};
ghost use Rattle.jz_disasm.specs.Names.{suffix_text, wide_text, word_text};

use jz_text::reg_name;
use x64_insn::{Alu, Cond, One, Reg, Shift, Size, Wide};

/// A size in bits, behind a mnemonic.
#[tactic(auto, unfolding(crate::specs::Names::suffix_text))]
pub fn suffix(size: Size) -> &'static str
    ensures { result.now ≡ suffix_text size }
{
    match size {
        Size::S8 => ".8",
        Size::S16 => ".16",
        Size::S32 => ".32",
        Size::S64 => ".64",
    }
}

/// The name of a register's lowest 8 bits.
#[tactic(auto, unfolding(crate::specs::Names::byte_text))]
fn byte_name(reg: Reg) -> &'static str
    ensures { result.now ≡ byte_text reg }
{
    match reg {
        Reg::Rax => "al",
        Reg::Rcx => "cl",
        Reg::Rdx => "dl",
        Reg::Rbx => "bl",
        Reg::Rsp => "spl",
        Reg::Rbp => "bpl",
        Reg::Rsi => "sil",
        Reg::Rdi => "dil",
        Reg::R8 => "r8b",
        Reg::R9 => "r9b",
        Reg::R10 => "r10b",
        Reg::R11 => "r11b",
        Reg::R12 => "r12b",
        Reg::R13 => "r13b",
        Reg::R14 => "r14b",
        Reg::R15 => "r15b",
    }
}

/// The name of a register's lowest 16 bits.
#[tactic(auto, unfolding(crate::specs::Names::word_text))]
fn word_name(reg: Reg) -> &'static str
    ensures { result.now ≡ word_text reg }
{
    match reg {
        Reg::Rax => "ax",
        Reg::Rcx => "cx",
        Reg::Rdx => "dx",
        Reg::Rbx => "bx",
        Reg::Rsp => "sp",
        Reg::Rbp => "bp",
        Reg::Rsi => "si",
        Reg::Rdi => "di",
        Reg::R8 => "r8w",
        Reg::R9 => "r9w",
        Reg::R10 => "r10w",
        Reg::R11 => "r11w",
        Reg::R12 => "r12w",
        Reg::R13 => "r13w",
        Reg::R14 => "r14w",
        Reg::R15 => "r15w",
    }
}

/// The name of a register's lowest 32 bits.
#[tactic(auto, unfolding(crate::specs::Names::doubleword_text))]
fn doubleword_name(reg: Reg) -> &'static str
    ensures { result.now ≡ doubleword_text reg }
{
    match reg {
        Reg::Rax => "eax",
        Reg::Rcx => "ecx",
        Reg::Rdx => "edx",
        Reg::Rbx => "ebx",
        Reg::Rsp => "esp",
        Reg::Rbp => "ebp",
        Reg::Rsi => "esi",
        Reg::Rdi => "edi",
        Reg::R8 => "r8d",
        Reg::R9 => "r9d",
        Reg::R10 => "r10d",
        Reg::R11 => "r11d",
        Reg::R12 => "r12d",
        Reg::R13 => "r13d",
        Reg::R14 => "r14d",
        Reg::R15 => "r15d",
    }
}

/// A register's name at a size.
#[tactic(auto, unfolding(crate::specs::Names::sized_reg_text))]
pub fn sized_reg_name(size: Size, reg: Reg) -> &'static str
    ensures { result.now ≡ sized_reg_text size reg }
{
    match size {
        Size::S8 => byte_name(reg),
        Size::S16 => word_name(reg),
        Size::S32 => doubleword_name(reg),
        Size::S64 => reg_name(reg),
    }
}

/// The mnemonic of an operation on two operands.
#[tactic(auto, unfolding(crate::specs::Names::alu_text))]
pub fn alu_name(alu: Alu) -> &'static str
    ensures { result.now ≡ alu_text alu }
{
    match alu {
        Alu::Add => "add",
        Alu::Or => "or",
        Alu::Adc => "adc",
        Alu::Sbb => "sbb",
        Alu::And => "and",
        Alu::Sub => "sub",
        Alu::Xor => "xor",
        Alu::Cmp => "cmp",
        Alu::Test => "test",
    }
}

/// The mnemonic of an operation on one operand.
#[tactic(auto, unfolding(crate::specs::Names::one_text))]
pub fn one_name(one: One) -> &'static str
    ensures { result.now ≡ one_text one }
{
    match one {
        One::Not => "not",
        One::Neg => "neg",
        One::Inc => "inc",
        One::Dec => "dec",
    }
}

/// The mnemonic of a product or a quotient.
#[tactic(auto, unfolding(crate::specs::Names::wide_text))]
pub fn wide_name(wide: Wide) -> &'static str
    ensures { result.now ≡ wide_text wide }
{
    match wide {
        Wide::Mul => "mul",
        Wide::Imul => "imul",
        Wide::Div => "div",
        Wide::Idiv => "idiv",
    }
}

/// The mnemonic of a rotation or a shift.
#[tactic(auto, unfolding(crate::specs::Names::shift_text))]
pub fn shift_name(shift: Shift) -> &'static str
    ensures { result.now ≡ shift_text shift }
{
    match shift {
        Shift::Rol => "rol",
        Shift::Ror => "ror",
        Shift::Shl => "shl",
        Shift::Shr => "shr",
        Shift::Sar => "sar",
    }
}

/// The mnemonic of a move that extends an operand of a size.
#[tactic(auto, unfolding(crate::specs::Names::extend_text))]
pub fn extend_name(signed: bool, from: Size) -> &'static str
    ensures { result.now ≡ extend_text signed from }
{
    match (signed, from) {
        (false, _) => "movzx",
        (true, Size::S32) => "movsxd",
        (true, Size::S8 | Size::S16 | Size::S64) => "movsx",
    }
}

/// A condition, behind `j`, `set` and `cmov`.
#[tactic(auto, unfolding(crate::specs::Names::cond_text))]
pub fn cond_name(cond: Cond) -> &'static str
    ensures { result.now ≡ cond_text cond }
{
    match cond {
        Cond::O => "o",
        Cond::No => "no",
        Cond::B => "b",
        Cond::Ae => "ae",
        Cond::E => "e",
        Cond::Ne => "ne",
        Cond::Be => "be",
        Cond::A => "a",
        Cond::S => "s",
        Cond::Ns => "ns",
        Cond::P => "p",
        Cond::Np => "np",
        Cond::L => "l",
        Cond::Ge => "ge",
        Cond::Le => "le",
        Cond::G => "g",
    }
}
