//! Operations over variables. A variable is a number; it holds a word or a flag.

use jz_ir::Span;
use jz_words::Size;
use x64_insn::{Alu, Cond, One, Reg, Shift, Wide};

/// A variable that has to be in a place, and where the text says so.
#[derive(Clone, Copy)]
pub struct Pinned {
    pub variable: u32,
    pub span: Span,
}

/// An address in memory: base + scale * index + displacement, modulo 2^64. Base and index are words
/// of 64 bits.
#[derive(Clone, Copy)]
pub struct Address {
    pub base: Option<u32>,
    pub index: Option<(u32, u8)>,
    pub disp: i32,
}

/// A cell of a stack variable, at index + offset, modulo 2^64. A scalar has the cell 0.
#[derive(Clone, Copy)]
pub struct Cell {
    pub of: u32,
    pub index: Option<u32>,
    pub offset: i32,
}

/// A stack variable: the size and the number of its cells.
#[derive(Clone, Copy)]
pub struct Stacked {
    pub size: Size,
    pub count: u32,
}

/// An operand.
#[derive(Clone, Copy)]
pub enum Arg {
    /// A variable, in whatever register it is.
    Var(u32),
    /// The signed reading of its bits.
    Imm(i64),
    Mem(Address),
    Cell(Cell),
    /// That register: a variable that has to be there, or what an operation leaves there besides.
    At(Reg, Option<Pinned>),
}

/// A condition: of the flags as they are, or a variable in a flag, denied or not.
#[derive(Clone, Copy)]
pub enum Condition {
    Cc(Cond),
    Flag(u32, bool),
}

/// An instruction over variables. Of two operands the destination stands first.
#[derive(Clone, Copy)]
pub enum Action {
    /// ADC and SBB read the variable in CF.
    Alu(Alu, Size, Arg, Arg, Option<Pinned>),
    Mov(Size, Arg, Arg),
    Extend {
        signed: bool,
        to: Size,
        from: Size,
        var: u32,
        rm: Arg,
    },
    Lea(u32, Address),
    One(One, Size, Arg),
    /// The variables in RAX and RDX; the operand.
    Wide(Wide, Size, Option<Pinned>, Option<Pinned>, Arg),
    Imul(Size, u32, Arg),
    ImulBy(Size, u32, Arg, i32),
    Shift(Shift, Size, Arg, u8),
    /// By the variable in CL.
    ShiftBy(Shift, Size, Arg, Pinned),
    Bswap(Size, u32),
    /// CDQ and CQO: the variables in RAX and RDX.
    Sign(Size, Option<Pinned>, Option<Pinned>),
    Set(Condition, Arg),
    Cmov(Condition, Size, u32, Arg),
}

/// The variables that an operation's flags become.
#[derive(Clone, Copy)]
pub struct Flags {
    pub of: Option<Pinned>,
    pub cf: Option<Pinned>,
    pub sf: Option<Pinned>,
    pub pf: Option<Pinned>,
    pub zf: Option<Pinned>,
}

/// An operation of a statement.
#[derive(Clone, Copy)]
pub struct Operation {
    pub span: Span,
    pub action: Action,
    pub flags: Flags,
}
