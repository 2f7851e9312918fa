//! The parts of an instruction, and the state of a machine.

use jz_words::Size;

/// A general-purpose register, by the name of its 64 bits (Intel SDM vol. 1, 3.4.1).
#[derive(Clone, Copy, PartialEq, Eq)]
pub enum Reg {
    Rax,
    Rcx,
    Rdx,
    Rbx,
    Rsp,
    Rbp,
    Rsi,
    Rdi,
    R8,
    R9,
    R10,
    R11,
    R12,
    R13,
    R14,
    R15,
}

/// A status flag, in the order in which `State` keeps them (Intel SDM vol. 1, 3.4.3.1).
#[derive(Clone, Copy, PartialEq, Eq)]
pub enum Flag {
    Of,
    Cf,
    Sf,
    Pf,
    Zf,
}

/// Where a value can stand: a register or a flag.
#[derive(Clone, Copy, PartialEq, Eq)]
pub enum Place {
    Reg(Reg),
    Flag(Flag),
}

/// What is known of a flag: an instruction may leave one undefined.
#[derive(Clone, Copy)]
pub enum FlagVal {
    True,
    False,
    Undefined,
}

/// The condition of a jump, a move or a SETcc, in the order of its code 0 .. 15 (Intel SDM vol. 2,
/// appendix B.1.4.7).
#[derive(Clone, Copy)]
pub enum Cond {
    O,
    No,
    B,
    Ae,
    E,
    Ne,
    Be,
    A,
    S,
    Ns,
    P,
    Np,
    L,
    Ge,
    Le,
    G,
}

/// The base of an address.
#[derive(Clone, Copy)]
pub enum Base {
    Absent,
    Reg(Reg),
    Rip,
}

/// An address: base + scale * index + displacement, modulo 2^64. The scale is 1, 2, 4 or 8.
#[derive(Clone, Copy)]
pub struct Mem {
    pub base: Base,
    pub index: Option<(Reg, u8)>,
    pub disp: i32,
}

/// An operand. An immediate is the signed reading of its bits.
#[derive(Clone, Copy)]
pub enum Operand {
    Reg(Reg),
    Imm(i64),
    Mem(Mem),
}

/// The operations on two operands. CMP and TEST set the flags alone.
#[derive(Clone, Copy)]
pub enum Alu {
    Add,
    Or,
    Adc,
    Sbb,
    And,
    Sub,
    Xor,
    Cmp,
    Test,
}

/// The operations on one operand.
#[derive(Clone, Copy)]
pub enum One {
    Not,
    Neg,
    Inc,
    Dec,
}

/// Products and quotients over RDX and RAX.
#[derive(Clone, Copy)]
pub enum Wide {
    Mul,
    Imul,
    Div,
    Idiv,
}

/// Rotations and shifts.
#[derive(Clone, Copy)]
pub enum Shift {
    Rol,
    Ror,
    Shl,
    Shr,
    Sar,
}

/// How far a shift goes: an immediate, or the register CL.
#[derive(Clone, Copy)]
pub enum Count {
    Imm(u8),
    Cl,
}

/// The width of a jump's displacement.
#[derive(Clone, Copy)]
pub enum Width {
    Rel8,
    Rel32,
}

/// An instruction. Of two operands the destination stands first.
#[derive(Clone, Copy)]
pub enum Insn {
    Alu(Alu, Size, Operand, Operand),
    Mov(Size, Operand, Operand),
    Extend {
        signed: bool,
        to: Size,
        from: Size,
        reg: Reg,
        rm: Operand,
    },
    Lea(Reg, Mem),
    One(One, Size, Operand),
    Wide(Wide, Size, Operand),
    Imul(Size, Reg, Operand),
    ImulBy(Size, Reg, Operand, i32),
    Shift(Shift, Size, Operand, Count),
    Bswap(Size, Reg),
    Cdq,
    Cqo,
    Set(Cond, Operand),
    Cmov(Cond, Size, Reg, Operand),
    Jcc(Cond, Width, i32),
    Jmp(Width, i32),
    Call(i32),
    Ret,
}

/// Registers, instruction pointer and flags, in the orders of `Reg` and `Flag`.
#[derive(Clone, Copy)]
pub struct State {
    pub regs: [u64; 16],
    pub rip: u64,
    pub flags: [FlagVal; 5],
}

impl State {
    ghost use Rattle.std.specs.Prelude.{◌≡◌};
    ghost use Rattle.x64_insn.specs.Rows.{reg_value};

    /// The 64 bits of a register.
    pub fn reg(&self, reg: Reg) -> u64
        ensures { result ≡ reg_value self.now reg }
    {
        self.regs[reg as usize]
    }
}

/// What a step shows: whether a branch was taken, the address of a memory access, and high word,
/// low word and divisor of a division.
#[derive(Clone, Copy)]
pub struct StepLeak {
    pub branch: Option<bool>,
    pub addr: Option<u64>,
    pub div: Option<(u64, u64, u64)>,
}

/// Why a step is not made.
#[derive(Clone, Copy)]
pub enum FaultKind {
    NoInsn,
    BadAddress,
    Divide,
    UndefinedFlag,
}
