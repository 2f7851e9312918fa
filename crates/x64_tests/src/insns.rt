//! The text of an instruction: its name, then its parts in their order, each behind a space.

use std::alloc::AllocError;
use x64_insn::{Base, Cond, Count, Insn, Mem, Operand, Reg, Size, Width};

const REGS: [&str; 16] = [
    "rax", "rcx", "rdx", "rbx", "rsp", "rbp", "rsi", "rdi", "r8", "r9", "r10", "r11", "r12", "r13",
    "r14", "r15",
];

const CONDS: [&str; 16] = [
    "o", "no", "b", "ae", "e", "ne", "be", "a", "s", "ns", "p", "np", "l", "ge", "le", "g",
];

const ALUS: [&str; 9] = [
    "add", "or", "adc", "sbb", "and", "sub", "xor", "cmp", "test",
];

const ONES: [&str; 4] = ["not", "neg", "inc", "dec"];

const WIDES: [&str; 4] = ["mul", "imul", "div", "idiv"];

const SHIFTS: [&str; 5] = ["rol", "ror", "shl", "shr", "sar"];

const SIZES: [&str; 4] = ["8", "16", "32", "64"];

const WIDTHS: [&str; 2] = ["rel8", "rel32"];

/// A part of an instruction behind its name.
#[derive(Clone, Copy)]
enum Part {
    Absent,
    Word(&'static str),
    Number(i64),
    Count(Count),
    Operand(Operand),
    Mem(Mem),
}

fn size_word(size: Size) -> Part {
    Part::Word(SIZES[size as usize])
}

fn width_word(width: Width) -> Part {
    Part::Word(WIDTHS[width as usize])
}

fn cond_word(cond: Cond) -> Part {
    Part::Word(CONDS[cond as usize])
}

fn reg_word(reg: Reg) -> Part {
    Part::Word(REGS[reg as usize])
}

fn number(number: i32) -> Part {
    Part::Number(number as i64)
}

fn operand(operand: Operand) -> Part {
    Part::Operand(operand)
}

fn two(first: Part, second: Part) -> [Part; 4] {
    [first, second, Part::Absent, Part::Absent]
}

fn three(first: Part, second: Part, third: Part) -> [Part; 4] {
    [first, second, third, Part::Absent]
}

fn four(first: Part, second: Part, third: Part, fourth: Part) -> [Part; 4] {
    [first, second, third, fourth]
}

/// The name of an instruction.
fn name(insn: &Insn) -> &'static str {
    match insn {
        Insn::Alu(op, _, _, _) => ALUS[*op as usize],
        Insn::Mov(_, _, _) => "mov",
        Insn::Extend { signed: true, .. } => "movsx",
        Insn::Extend { signed: false, .. } => "movzx",
        Insn::Lea(_, _) => "lea",
        Insn::One(op, _, _) => ONES[*op as usize],
        Insn::Wide(op, _, _) => WIDES[*op as usize],
        Insn::Imul(_, _, _) | Insn::ImulBy(_, _, _, _) => "imul",
        Insn::Shift(op, _, _, _) => SHIFTS[*op as usize],
        Insn::Bswap(_, _) => "bswap",
        Insn::Cdq => "cdq",
        Insn::Cqo => "cqo",
        Insn::Set(_, _) => "set",
        Insn::Cmov(_, _, _, _) => "cmov",
        Insn::Jcc(_, _, _) => "j",
        Insn::Jmp(_, _) => "jmp",
        Insn::Call(_) => "call",
        Insn::Ret => "ret",
    }
}

/// What stands behind the name.
fn parts(insn: &Insn) -> [Part; 4] {
    match *insn {
        Insn::Alu(_, size, to, from) | Insn::Mov(size, to, from) => {
            three(size_word(size), operand(to), operand(from))
        }
        Insn::Extend {
            to,
            from,
            reg,
            rm,
            ..
        } => four(size_word(to), size_word(from), reg_word(reg), operand(rm)),
        Insn::Lea(reg, mem) => two(reg_word(reg), Part::Mem(mem)),
        Insn::One(_, size, rm) | Insn::Wide(_, size, rm) => two(size_word(size), operand(rm)),
        Insn::Imul(size, reg, rm) => three(size_word(size), reg_word(reg), operand(rm)),
        Insn::ImulBy(size, reg, rm, by) => {
            four(size_word(size), reg_word(reg), operand(rm), number(by))
        }
        Insn::Shift(_, size, rm, count) => {
            three(size_word(size), operand(rm), Part::Count(count))
        }
        Insn::Bswap(size, reg) => two(size_word(size), reg_word(reg)),
        Insn::Set(cond, rm) => two(cond_word(cond), operand(rm)),
        Insn::Cmov(cond, size, reg, rm) => {
            four(cond_word(cond), size_word(size), reg_word(reg), operand(rm))
        }
        Insn::Jcc(cond, width, disp) => three(cond_word(cond), width_word(width), number(disp)),
        Insn::Jmp(width, disp) => two(width_word(width), number(disp)),
        Insn::Call(disp) => two(number(disp), Part::Absent),
        Insn::Cdq | Insn::Cqo | Insn::Ret => [Part::Absent; 4],
    }
}

fn base(base: Base) -> &'static str {
    match base {
        Base::Absent => "-",
        Base::Reg(reg) => REGS[reg as usize],
        Base::Rip => "rip",
    }
}

/// Base, index with its scale, and displacement.
fn write_address(text: &mut String, mem: Mem) -> Result<(), AllocError> {
    let base = base(mem.base);
    let disp = mem.disp;
    match mem.index {
        None => write!(text, " [{base} {disp}]"),
        Some((index, scale)) => {
            let index = REGS[index as usize];
            write!(text, " [{base} {index}*{scale} {disp}]")
        }
    }
}

fn write_word(text: &mut String, word: &str) -> Result<(), AllocError> {
    write!(text, " {word}")
}

fn write_number(text: &mut String, number: i64) -> Result<(), AllocError> {
    write!(text, " {number}")
}

fn write_operand(text: &mut String, operand: Operand) -> Result<(), AllocError> {
    match operand {
        Operand::Reg(reg) => write_word(text, REGS[reg as usize]),
        Operand::Imm(number) => write_number(text, number),
        Operand::Mem(mem) => write_address(text, mem),
    }
}

fn write_count(text: &mut String, count: Count) -> Result<(), AllocError> {
    match count {
        Count::Imm(count) => write_number(text, count as i64),
        Count::Cl => write_word(text, "cl"),
    }
}

fn write_part(text: &mut String, part: Part) -> Result<(), AllocError> {
    match part {
        Part::Absent => Ok(()),
        Part::Word(word) => write_word(text, word),
        Part::Number(number) => write_number(text, number),
        Part::Count(count) => write_count(text, count),
        Part::Operand(operand) => write_operand(text, operand),
        Part::Mem(mem) => write_address(text, mem),
    }
}

/// Appends an instruction.
pub fn write_insn(text: &mut String, insn: &Insn) -> Result<(), AllocError> {
    write_word(text, name(insn))?;
    for part in parts(insn) {
        write_part(text, part)?;
    }
    Ok(())
}
