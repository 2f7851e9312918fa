//! A frame, and the events of one operation in it.

ghost use Rattle.std.specs.Prelude.{◌≡◌, ◌≤ℤ◌, ◌*ℤ◌, ◌-ℤ◌, ◌^◌, pos, negsuc, ◌∷◌, [], ◌++◌};
ghost use Rattle.std.specs.Prelude.{true, IfOk, OnOk};
ghost use Rattle.std.specs.Option.{option_or};
ghost use Rattle.jz_words.specs.Sizes.{bytes_of};
ghost use Rattle.jz_operations.specs.Rows.{accesses};
ghost use Rattle.jz_place.specs.Bodies.{asked_of};
ghost use Rattle.jz_events.specs.Outs as of;
ghost use Rattle.jz_events.specs.Outs.{first_form, operation_outs, asked_outs};
ghost use Rattle.jz_events.specs.Cases.{slots_of};

use jz_data::Seq;
use jz_leak::{Form, Out};
use jz_operations::{Action, Arg, Cell};
use jz_place::Test;
use jz_words::Size;
use std::alloc::{AllocError, Global};
use x64_insn::{Reg, Wide};

/// The frame of a function: how far above the stack pointer each stack variable begins and the
/// first slot of a saved register stands, the registers that are saved in one slot above the other,
/// and how many bytes the frame has.
#[derive(Clone, Copy)]
pub struct FrameShape<'a> {
    pub slots: &'a [u32],
    pub first: u32,
    pub saved: &'a [Reg],
    pub size: u32,
}

fn bytes(size: Size) -> u64
    ensures { result ≡ bytes_of size }
{
    match size {
        Size::S8 => 1,
        Size::S16 => 2,
        Size::S32 => 4,
        Size::S64 => 8,
    }
}

/// As many bytes as so many cells have.
fn bytes_before(size: Size, cells: i32) -> i128
    ensures is { result ≡ pos (bytes_of size) *ℤ cells }
    ensures least { negsuc (2 ^ 40) ≤ℤ result }
    ensures most { result ≤ℤ pos (2 ^ 40) }
{
    let cells = i128::from(cells);
    match size {
        Size::S8 => cells,
        Size::S16 => 2 * cells,
        Size::S32 => 4 * cells,
        Size::S64 => 8 * cells,
    }
}

/// An offset in a frame of that size, counted from the stack pointer at entry.
fn from_entry(offset: i128, size: u32) -> i64
    requires least { negsuc (2 ^ 41) ≤ℤ offset }
    requires most { offset ≤ℤ pos (2 ^ 41) }
    ensures { result ≡ offset -ℤ pos size }
{
    let number = offset - i128::from(size);
    number as i64
}

fn divides(action: Action) -> bool
    ensures { result ≡ of.divides action }
{
    match action {
        Action::Wide(op, _, _, _, _) => match op {
            Wide::Mul => false,
            Wide::Imul => false,
            Wide::Div => true,
            Wide::Idiv => true,
        },
        Action::Alu(_, _, _, _, _) => false,
        Action::Mov(_, _, _) => false,
        Action::Extend { .. } => false,
        Action::Lea(_, _) => false,
        Action::One(_, _, _) => false,
        Action::Imul(_, _, _) => false,
        Action::ImulBy(_, _, _, _) => false,
        Action::Shift(_, _, _, _) => false,
        Action::ShiftBy(_, _, _, _) => false,
        Action::Bswap(_, _) => false,
        Action::Sign(_, _, _) => false,
        Action::Set(_, _) => false,
        Action::Cmov(_, _, _, _) => false,
    }
}

/// The access of either operand.
fn either(first: Option<(Form, bool)>, second: Option<(Form, bool)>) -> Option<(Form, bool)>
    ensures { result ≡ option_or first second }
{
    match first {
        None => second,
        Some(form) => Some(form),
    }
}

/// The numbers of a division, behind that of an access that leaks one.
fn division(leaks: bool) -> Out
    ensures { result ∷ [] ≡ of.division_outs true leaks }
{
    if leaks {
        Out::Div(Form::Leaked(1), Form::Leaked(2), Form::Leaked(3))
    } else {
        Out::Div(Form::Leaked(0), Form::Leaked(1), Form::Leaked(2))
    }
}

fn push_division(outs: &mut Seq<Out>, divides: bool, leaks: bool) -> Result<(), AllocError>
    ensures { OnOk result (outs.new ≡ outs.old ++ of.division_outs divides leaks) }
{
    if divides {
        outs.push(division(leaks))?;
    }
    Ok(())
}

/// The events of an access and of a division.
fn access_outs(
    alloc: Global,
    divides: bool,
    access: Option<(Form, bool)>,
) -> Result<Seq<Out>, AllocError>
    ensures { IfOk result (λ outs. outs ≡ of.access_outs divides access) }
{
    let mut outs = Seq::new(alloc);
    match access {
        None => {
            push_division(&mut outs, divides, false)?;
            Ok(outs)
        }
        Some((form, leaks)) => {
            outs.push(Out::Addr(form))?;
            push_division(&mut outs, divides, leaks)?;
            Ok(outs)
        }
    }
}

impl FrameShape<'_> {
    fn slot(&self, variable: u32) -> u32
        ensures { result ≡ slots_of self.now variable }
    {
        match self.slots.get(variable as usize) {
            Some(slot) => *slot,
            None => 0,
        }
    }

    /// The address of a cell, and whether a number of it leaks.
    fn cell(&self, size: Size, cell: Cell) -> (Form, bool)
        ensures { result ≡ of.cell_form (slots_of self.now) self.now.size size cell cell.index }
    {
        let slot = i128::from(self.slot(cell.of));
        match cell.index {
            None => {
                let offset = slot + bytes_before(size, cell.offset);
                (Form::Frame(from_entry(offset, self.size)), false)
            }
            Some(_) => (
                Form::Indexed(from_entry(slot, self.size), bytes(size), 0),
                true,
            ),
        }
    }

    fn arg(&self, size: Size, arg: Arg) -> Option<(Form, bool)>
        ensures { result ≡ of.arg_form (slots_of self.now) self.now.size size arg }
    {
        match arg {
            Arg::Mem(_) => Some((Form::Leaked(0), true)),
            Arg::Cell(cell) => Some(self.cell(size, cell)),
            Arg::Var(_) => None,
            Arg::Imm(_) => None,
            Arg::At(_, _) => None,
        }
    }

    fn both(&self, size: Size, first: Arg, second: Arg) -> Option<(Form, bool)>
        ensures { result ≡ option_or (of.arg_form (slots_of self.now) self.now.size size first)
            (of.arg_form (slots_of self.now) self.now.size size second) }
    {
        either(self.arg(size, first), self.arg(size, second))
    }

    /// The access of an operation.
    fn access(&self, action: Action) -> Option<(Form, bool)>
        ensures { result ≡ first_form (slots_of self.now) self.now.size (accesses action) }
    {
        match action {
            Action::Alu(_, size, to, from, _) => self.both(size, to, from),
            Action::Mov(size, to, from) => self.both(size, to, from),
            Action::Extend { from, rm, .. } => self.arg(from, rm),
            Action::Lea(_, _) => None,
            Action::One(_, size, rm) => self.arg(size, rm),
            Action::Wide(_, size, _, _, rm) => self.arg(size, rm),
            Action::Imul(size, _, rm) => self.arg(size, rm),
            Action::ImulBy(size, _, rm, _) => self.arg(size, rm),
            Action::Shift(_, size, rm, _) => self.arg(size, rm),
            Action::ShiftBy(_, size, rm, _) => self.arg(size, rm),
            Action::Bswap(_, _) => None,
            Action::Sign(_, _, _) => None,
            Action::Set(_, rm) => self.arg(Size::S8, rm),
            Action::Cmov(_, size, _, rm) => self.arg(size, rm),
        }
    }

    /// The events of an operation.
    pub(crate) fn operation_outs(
        &self,
        alloc: Global,
        action: Action,
    ) -> Result<Seq<Out>, AllocError>
        ensures { IfOk result
            (λ outs. outs ≡ operation_outs (slots_of self.now) self.now.size action) }
    {
        let divides = divides(action);
        let access = self.access(action);
        let outs = access_outs(alloc, divides, access)?;
        Ok(outs)
    }

    /// The events of a test, without that of its jump.
    pub(crate) fn test_outs(&self, alloc: Global, test: Test) -> Result<Seq<Out>, AllocError>
        ensures { IfOk result
            (λ outs. outs ≡ asked_outs (slots_of self.now) self.now.size (asked_of test)) }
    {
        match test {
            Test::Always => Ok(Seq::new(alloc)),
            Test::If(None, _) => Ok(Seq::new(alloc)),
            Test::If(Some(operation), _) => {
                let outs = self.operation_outs(alloc, operation.action)?;
                Ok(outs)
            }
        }
    }
}
