//! Instructions without a spelling.

use crate::machines::{BASE, write_answer};
use jz_leak::MemMap;
use std::alloc::{AllocError, Global};
use x64_encode::has_spelling;
use x64_insn::{
    Alu, Base, Cond, FlagVal, Insn, Mem, One, Operand, Reg, Size, State, Wide, Width, effect,
};
use x64_machine::{MemBus, Step};

const RAX: Operand = Operand::Reg(Reg::Rax);

const MEM: Operand = Operand::Mem(Mem {
    base: Base::Reg(Reg::Rbx),
    index: None,
    disp: 0,
});

fn address(base: Base, index: Option<(Reg, u8)>) -> Operand {
    Operand::Mem(Mem {
        base,
        index,
        disp: 0,
    })
}

fn load(base: Base, index: Option<(Reg, u8)>) -> Insn {
    Insn::Mov(Size::S64, RAX, address(base, index))
}

fn extend(signed: bool, to: Size, from: Size) -> Insn {
    Insn::Extend {
        signed,
        to,
        from,
        reg: Reg::Rax,
        rm: RAX,
    }
}

fn spelled(insns: &[Insn]) -> usize {
    insns.iter().filter(|insn| has_spelling(insn)).count()
}

/// No opcode has these operands or sizes.
fn operands() -> usize {
    spelled(&[
        Insn::Alu(Alu::Add, Size::S64, Operand::Imm(1), RAX),
        Insn::Alu(Alu::Add, Size::S64, MEM, MEM),
        Insn::Alu(Alu::Test, Size::S64, RAX, MEM),
        Insn::Mov(Size::S64, Operand::Imm(1), RAX),
        Insn::Mov(Size::S64, MEM, MEM),
        Insn::One(One::Not, Size::S64, Operand::Imm(1)),
        Insn::Wide(Wide::Mul, Size::S8, RAX),
        Insn::Imul(Size::S8, Reg::Rax, RAX),
        Insn::ImulBy(Size::S8, Reg::Rax, RAX, 1),
        Insn::Cmov(Cond::E, Size::S8, Reg::Rax, RAX),
        Insn::Bswap(Size::S16, Reg::Rax),
        extend(false, Size::S64, Size::S32),
        extend(true, Size::S16, Size::S16),
    ])
}

/// Numbers that no field holds.
fn numbers() -> usize {
    spelled(&[
        Insn::Alu(Alu::Add, Size::S8, RAX, Operand::Imm(128)),
        Insn::Alu(Alu::Add, Size::S16, RAX, Operand::Imm(-0x8001)),
        Insn::Alu(Alu::Add, Size::S64, RAX, Operand::Imm(0x8000_0000)),
        Insn::Alu(Alu::Test, Size::S32, RAX, Operand::Imm(-0x8000_0001)),
        Insn::Mov(Size::S32, RAX, Operand::Imm(0x8000_0000)),
        Insn::Mov(
            Size::S64,
            address(Base::Rip, None),
            Operand::Imm(0x8000_0000),
        ),
        Insn::ImulBy(Size::S16, Reg::Rax, RAX, 0x8000),
        Insn::Jmp(Width::Rel8, 128),
        Insn::Jcc(Cond::E, Width::Rel8, -129),
    ])
}

/// Addresses that no field holds.
fn addresses() -> usize {
    spelled(&[
        load(Base::Reg(Reg::Rax), Some((Reg::Rsp, 1))),
        load(Base::Absent, Some((Reg::Rsp, 8))),
        load(Base::Reg(Reg::Rax), Some((Reg::Rcx, 3))),
        load(Base::Reg(Reg::Rax), Some((Reg::Rcx, 0))),
        load(Base::Rip, Some((Reg::Rcx, 1))),
    ])
}

/// How many of the 27 instructions have a spelling: of those with such operands, such numbers and
/// such addresses.
pub fn counts() -> (usize, usize, usize) {
    (operands(), numbers(), addresses())
}

/// What a move to a number answers, which no bytes are.
fn moved_to_number(alloc: Global) -> Step {
    let mut state = State {
        regs: [0; 16],
        rip: BASE,
        flags: [FlagVal::Undefined; 5],
    };
    let mut memory = MemBus {
        map: MemMap::new(alloc),
    };
    let insn = Insn::Mov(Size::S64, Operand::Imm(1), RAX);
    match effect(&insn, BASE + 1, &mut state, &mut memory) {
        Ok(_) => Step::Running,
        Err(fault) => Step::Fault(fault),
    }
}

/// The answer to `mov_to_number`: that of a move to a number.
pub fn to_number(alloc: Global) -> Result<String, AllocError> {
    let mut text = String::new(alloc);
    write_answer(&mut text, moved_to_number(alloc))?;
    Ok(text)
}
