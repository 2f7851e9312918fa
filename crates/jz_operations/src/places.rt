//! The instruction of an operation, where each variable has a place.

ghost use Rattle.std.specs.Prelude.{◌≡◌, ◌≤ℤ◌, ◌*ℤ◌, ◌^◌, pos, negsuc, IsTrue};
ghost use Rattle.jz_words.specs.Sizes.{bytes_of};
ghost use Rattle.jz_words.specs.Readings.{fits_bytes};
ghost use Rattle.jz_operations.specs.Rows.{accesses};
ghost use Rattle.jz_operations.specs.Insns as of;
ghost use Rattle.jz_operations.specs.Insns.{places_in, slots_in, displacement, Fits, AllFit};

use crate::operation::{Action, Address, Arg, Cell, Condition};
use jz_words::{Size, fits_four_bytes};
use x64_insn::{Base, Cond, Count, Flag, Insn, Mem, Operand, Place, Reg, Shift};

/// Where variables stand: a place for each, and for each stack variable its distance from the stack
/// pointer.
#[derive(Clone, Copy)]
pub struct Places<'a> {
    pub places: &'a [Place],
    pub slots: &'a [u32],
}

fn scale(size: Size) -> u8
    ensures { result ≡ bytes_of size }
{
    match size {
        Size::S8 => 1,
        Size::S16 => 2,
        Size::S32 => 4,
        Size::S64 => 8,
    }
}

/// As many bytes as so many cells have.
fn bytes_before(size: Size, cells: i32) -> i128
    ensures is { result ≡ pos (bytes_of size) *ℤ cells }
    ensures least { negsuc (2 ^ 40) ≤ℤ result }
    ensures most { result ≤ℤ pos (2 ^ 40) }
{
    let cells = i128::from(cells);
    match size {
        Size::S8 => cells,
        Size::S16 => 2 * cells,
        Size::S32 => 4 * cells,
        Size::S64 => 8 * cells,
    }
}

fn is_set(flag: Flag) -> Cond
    ensures { result ≡ of.is_set flag }
{
    match flag {
        Flag::Of => Cond::O,
        Flag::Cf => Cond::B,
        Flag::Sf => Cond::S,
        Flag::Pf => Cond::P,
        Flag::Zf => Cond::E,
    }
}

fn is_clear(flag: Flag) -> Cond
    ensures { result ≡ of.is_clear flag }
{
    match flag {
        Flag::Of => Cond::No,
        Flag::Cf => Cond::Ae,
        Flag::Sf => Cond::Ns,
        Flag::Pf => Cond::Np,
        Flag::Zf => Cond::Ne,
    }
}

/// An extension; from 32 bits to 64 by zeros it is a move of 32 bits.
fn extend(signed: bool, to: Size, from: Size, reg: Reg, rm: Operand) -> Insn
    ensures { result ≡ of.extend_of signed to from reg rm }
{
    let extended = Insn::Extend {
        signed,
        to,
        from,
        reg,
        rm,
    };
    if signed {
        return extended;
    }
    match to {
        Size::S8 => extended,
        Size::S16 => extended,
        Size::S32 => extended,
        Size::S64 => match from {
            Size::S8 => extended,
            Size::S16 => extended,
            Size::S32 => Insn::Mov(Size::S32, Operand::Reg(reg), rm),
            Size::S64 => extended,
        },
    }
}

fn sign(size: Size) -> Insn
    ensures { result ≡ of.sign_of size }
{
    match size {
        Size::S8 => Insn::Cdq,
        Size::S16 => Insn::Cdq,
        Size::S32 => Insn::Cdq,
        Size::S64 => Insn::Cqo,
    }
}

impl Places<'_> {
    fn place(&self, variable: u32) -> Place
        ensures { result ≡ places_in self.now variable }
    {
        match self.places.get(variable as usize) {
            Some(place) => *place,
            None => Place::Reg(Reg::Rsp),
        }
    }

    fn reg(&self, variable: u32) -> Reg
        ensures { result ≡ of.reg_of (places_in self.now variable) }
    {
        match self.place(variable) {
            Place::Reg(reg) => reg,
            Place::Flag(_) => Reg::Rax,
        }
    }

    fn flag(&self, variable: u32) -> Flag
        ensures { result ≡ of.flag_of (places_in self.now variable) }
    {
        match self.place(variable) {
            Place::Reg(_) => Flag::Cf,
            Place::Flag(flag) => flag,
        }
    }

    fn slot(&self, variable: u32) -> u32
        ensures { result ≡ slots_in self.now variable }
    {
        match self.slots.get(variable as usize) {
            Some(slot) => *slot,
            None => 0,
        }
    }

    fn base(&self, variable: Option<u32>) -> Base
        ensures { result ≡ of.base_of (places_in self.now) (slots_in self.now) variable }
    {
        match variable {
            None => Base::Absent,
            Some(variable) => Base::Reg(self.reg(variable)),
        }
    }

    fn index(&self, index: Option<(u32, u8)>) -> Option<(Reg, u8)>
        ensures { result ≡ of.index_of (places_in self.now) (slots_in self.now) index }
    {
        match index {
            None => None,
            Some((variable, scale)) => Some((self.reg(variable), scale)),
        }
    }

    fn mem(&self, address: Address) -> Mem
        ensures { result ≡ of.mem_of (places_in self.now) (slots_in self.now) address }
    {
        Mem {
            base: self.base(address.base),
            index: self.index(address.index),
            disp: address.disp,
        }
    }

    fn scaled(&self, size: Size, index: Option<u32>) -> Option<(Reg, u8)>
        ensures { result ≡ of.scaled_by (places_in self.now) (slots_in self.now) size index }
    {
        match index {
            None => None,
            Some(variable) => Some((self.reg(variable), scale(size))),
        }
    }

    fn displacement(&self, cell: Cell, size: Size) -> i32
        requires { IsTrue (fits_bytes 4 (displacement (slots_in self.now) cell size)) }
        ensures { result ≡ displacement (slots_in self.now) cell size }
    {
        let number = i128::from(self.slot(cell.of)) + bytes_before(size, cell.offset);
        if fits_four_bytes(number) {
            number as i32
        } else {
            0
        }
    }

    fn cell(&self, cell: Cell, size: Size) -> Mem
        requires { IsTrue (fits_bytes 4 (displacement (slots_in self.now) cell size)) }
        ensures { result ≡ of.slot_of (places_in self.now) (slots_in self.now) cell size }
    {
        Mem {
            base: Base::Reg(Reg::Rsp),
            index: self.scaled(size, cell.index),
            disp: self.displacement(cell, size),
        }
    }

    fn operand(&self, arg: Arg, size: Size) -> Operand
        requires { Fits (slots_in self.now) size arg }
        ensures { result ≡ of.operand_of (places_in self.now) (slots_in self.now) arg size }
    {
        match arg {
            Arg::Var(variable) => Operand::Reg(self.reg(variable)),
            Arg::Imm(number) => Operand::Imm(number),
            Arg::Mem(address) => Operand::Mem(self.mem(address)),
            Arg::Cell(cell) => Operand::Mem(self.cell(cell, size)),
            Arg::At(reg, _) => Operand::Reg(reg),
        }
    }

    /// A shift or a rotation of an operand by a count.
    fn shift(&self, kind: Shift, size: Size, rm: Arg, count: Count) -> Insn
        requires { Fits (slots_in self.now) size rm }
        ensures { let shifted = of.operand_of (places_in self.now) (slots_in self.now) rm size in
            result ≡ Insn.Shift kind size shifted count }
    {
        Insn::Shift(kind, size, self.operand(rm, size), count)
    }

    /// The condition of the flags that a condition of variables is.
    pub fn cond(&self, condition: Condition) -> Cond
        ensures { result ≡ of.cond_of (places_in self.now) (slots_in self.now) condition }
    {
        match condition {
            Condition::Cc(cond) => cond,
            Condition::Flag(variable, true) => is_clear(self.flag(variable)),
            Condition::Flag(variable, false) => is_set(self.flag(variable)),
        }
    }

    /// The instruction of an operation whose cells have displacements of 32 bits.
    pub fn insn(&self, action: Action) -> Insn
        requires { AllFit (slots_in self.now) (accesses action) }
        ensures { result ≡ of.insn_of (places_in self.now) (slots_in self.now) action }
    {
        match action {
            Action::Alu(op, size, to, from, _) => {
                Insn::Alu(op, size, self.operand(to, size), self.operand(from, size))
            }
            Action::Mov(size, to, from) => {
                Insn::Mov(size, self.operand(to, size), self.operand(from, size))
            }
            Action::Extend {
                signed,
                to,
                from,
                var,
                rm,
            } => extend(signed, to, from, self.reg(var), self.operand(rm, from)),
            Action::Lea(var, address) => Insn::Lea(self.reg(var), self.mem(address)),
            Action::One(op, size, rm) => Insn::One(op, size, self.operand(rm, size)),
            Action::Wide(op, size, _, _, rm) => Insn::Wide(op, size, self.operand(rm, size)),
            Action::Imul(size, var, rm) => {
                Insn::Imul(size, self.reg(var), self.operand(rm, size))
            }
            Action::ImulBy(size, var, rm, number) => {
                Insn::ImulBy(size, self.reg(var), self.operand(rm, size), number)
            }
            Action::Shift(kind, size, rm, count) => self.shift(kind, size, rm, Count::Imm(count)),
            Action::ShiftBy(kind, size, rm, _) => self.shift(kind, size, rm, Count::Cl),
            Action::Bswap(size, var) => Insn::Bswap(size, self.reg(var)),
            Action::Sign(size, _, _) => sign(size),
            Action::Set(condition, rm) => {
                Insn::Set(self.cond(condition), self.operand(rm, Size::S8))
            }
            Action::Cmov(condition, size, var, rm) => {
                let rm = self.operand(rm, size);
                Insn::Cmov(self.cond(condition), size, self.reg(var), rm)
            }
        }
    }
}
