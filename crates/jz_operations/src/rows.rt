//! What the operations of each kind read, write and change.

ghost use Rattle.std.specs.Prelude.{◌≡◌, Some, None};
ghost use Rattle.x64_insn.specs.Rows.{writes_operand};
ghost use Rattle.jz_operations.specs.declared.rows.Input.TheVariants.{Word};
ghost use Rattle.jz_operations.specs.Rows.{wide_inputs, inputs, outputs};
ghost use Rattle.jz_operations.specs.Rows.{one_changes, shift_changes, changes};
ghost use Rattle.jz_operations.specs.InnerSeen.{inputs_of, outputs_of, changes_of};

use crate::operation::{Action, Address, Arg, Pinned};
use jz_words::Size;
use x64_insn::{Alu, One, Reg, Shift, Wide};

/// What an operation computes with: the word of an operand, or an address that is not accessed.
#[derive(Clone, Copy)]
pub enum Input {
    Word(Size, Arg),
    Sum(Address),
}

/// The inputs of an operation, in their order.
#[derive(Clone, Copy)]
pub(crate) struct ThreeInputs {
    pub(crate) first: Option<Input>,
    pub(crate) second: Option<Input>,
    pub(crate) third: Option<Input>,
}

/// The operands that an operation writes, in their order.
#[derive(Clone, Copy)]
pub(crate) struct TwoOutputs {
    pub(crate) first: Option<(Size, Arg)>,
    pub(crate) second: Option<(Size, Arg)>,
}

/// Which flags an operation writes.
#[derive(Clone, Copy)]
pub(crate) struct ChangedFlags {
    pub(crate) of: bool,
    pub(crate) cf: bool,
    pub(crate) sf: bool,
    pub(crate) pf: bool,
    pub(crate) zf: bool,
}

const ALL: ChangedFlags = ChangedFlags {
    of: true,
    cf: true,
    sf: true,
    pf: true,
    zf: true,
};

const NONE: ChangedFlags = ChangedFlags {
    of: false,
    cf: false,
    sf: false,
    pf: false,
    zf: false,
};

fn one(size: Size, arg: Arg) -> ThreeInputs
    ensures { result ≡ record { first = Some (Word size arg); second = None; third = None } }
{
    ThreeInputs {
        first: Some(Input::Word(size, arg)),
        second: None,
        third: None,
    }
}

fn two(size: Size, arg: Arg, other_size: Size, other: Arg) -> ThreeInputs
    ensures { result ≡ record {
      first = Some (Word size arg);
      second = Some (Word other_size other);
      third = None;
    } }
{
    ThreeInputs {
        first: Some(Input::Word(size, arg)),
        second: Some(Input::Word(other_size, other)),
        third: None,
    }
}

fn wide_inputs(
    op: Wide,
    size: Size,
    low: Option<Pinned>,
    high: Option<Pinned>,
    rm: Arg,
) -> ThreeInputs
    ensures { inputs_of result ≡ wide_inputs op size low high rm }
{
    let first = Some(Input::Word(size, rm));
    let second = Some(Input::Word(size, Arg::At(Reg::Rax, low)));
    let third = Some(Input::Word(size, Arg::At(Reg::Rdx, high)));
    match op {
        Wide::Mul => two(size, rm, size, Arg::At(Reg::Rax, low)),
        Wide::Imul => two(size, rm, size, Arg::At(Reg::Rax, low)),
        Wide::Div => ThreeInputs {
            first,
            second,
            third,
        },
        Wide::Idiv => ThreeInputs {
            first,
            second,
            third,
        },
    }
}

pub(crate) fn inputs(action: Action) -> ThreeInputs
    ensures { inputs_of result ≡ inputs action }
{
    match action {
        Action::Alu(_, size, to, from, _) => two(size, to, size, from),
        Action::Mov(size, _, from) => one(size, from),
        Action::Extend {
            signed: _,
            to: _,
            from,
            var: _,
            rm,
        } => one(from, rm),
        Action::Lea(_, address) => ThreeInputs {
            first: Some(Input::Sum(address)),
            second: None,
            third: None,
        },
        Action::One(_, size, rm) => one(size, rm),
        Action::Wide(op, size, low, high, rm) => wide_inputs(op, size, low, high, rm),
        Action::Imul(size, var, rm) => two(size, Arg::Var(var), size, rm),
        Action::ImulBy(size, _, rm, _) => one(size, rm),
        Action::Shift(_, size, rm, _) => one(size, rm),
        Action::ShiftBy(_, size, rm, count) => {
            two(size, rm, Size::S8, Arg::At(Reg::Rcx, Some(count)))
        }
        Action::Bswap(size, var) => one(size, Arg::Var(var)),
        Action::Sign(size, low, _) => one(size, Arg::At(Reg::Rax, low)),
        Action::Set(_, _) => ThreeInputs {
            first: None,
            second: None,
            third: None,
        },
        Action::Cmov(_, size, var, rm) => two(size, rm, size, Arg::Var(var)),
    }
}

/// Whether the operation writes its first operand: CMP and TEST do not.
fn writes_operand(op: Alu) -> bool
    ensures { result ≡ writes_operand op }
{
    match op {
        Alu::Cmp => false,
        Alu::Test => false,
        Alu::Add => true,
        Alu::Or => true,
        Alu::Adc => true,
        Alu::Sbb => true,
        Alu::And => true,
        Alu::Sub => true,
        Alu::Xor => true,
    }
}

fn alone(size: Size, arg: Arg) -> TwoOutputs
    ensures { result ≡ record { first = Some (size, arg); second = None } }
{
    TwoOutputs {
        first: Some((size, arg)),
        second: None,
    }
}

pub(crate) fn outputs(action: Action) -> TwoOutputs
    ensures { outputs_of result ≡ outputs action }
{
    match action {
        Action::Alu(op, size, to, _, _) => {
            if writes_operand(op) {
                alone(size, to)
            } else {
                TwoOutputs {
                    first: None,
                    second: None,
                }
            }
        }
        Action::Mov(size, to, _) => alone(size, to),
        Action::Extend {
            signed: _,
            to,
            from: _,
            var,
            rm: _,
        } => alone(to, Arg::Var(var)),
        Action::Lea(var, _) => alone(Size::S64, Arg::Var(var)),
        Action::One(_, size, rm) => alone(size, rm),
        Action::Wide(_, size, low, high, _) => TwoOutputs {
            first: Some((size, Arg::At(Reg::Rax, low))),
            second: Some((size, Arg::At(Reg::Rdx, high))),
        },
        Action::Imul(size, var, _) => alone(size, Arg::Var(var)),
        Action::ImulBy(size, var, _, _) => alone(size, Arg::Var(var)),
        Action::Shift(_, size, rm, _) => alone(size, rm),
        Action::ShiftBy(_, size, rm, _) => alone(size, rm),
        Action::Bswap(size, var) => alone(size, Arg::Var(var)),
        Action::Sign(size, _, high) => alone(size, Arg::At(Reg::Rdx, high)),
        Action::Set(_, rm) => alone(Size::S8, rm),
        Action::Cmov(_, size, var, _) => alone(size, Arg::Var(var)),
    }
}

fn one_changes(op: One) -> ChangedFlags
    ensures { changes_of result ≡ one_changes op }
{
    match op {
        One::Not => NONE,
        One::Neg => ALL,
        One::Inc => ChangedFlags {
            of: true,
            cf: false,
            sf: true,
            pf: true,
            zf: true,
        },
        One::Dec => ChangedFlags {
            of: true,
            cf: false,
            sf: true,
            pf: true,
            zf: true,
        },
    }
}

/// Rotations write OF and CF alone.
#[tactic(auto, unfolding(x64_insn::specs::Shifts::keeps_result_flags))]
fn shift_changes(kind: Shift) -> ChangedFlags
    ensures { changes_of result ≡ shift_changes kind }
{
    match kind {
        Shift::Rol => ChangedFlags {
            of: true,
            cf: true,
            sf: false,
            pf: false,
            zf: false,
        },
        Shift::Ror => ChangedFlags {
            of: true,
            cf: true,
            sf: false,
            pf: false,
            zf: false,
        },
        Shift::Shl => ALL,
        Shift::Shr => ALL,
        Shift::Sar => ALL,
    }
}

pub(crate) fn changes(action: Action) -> ChangedFlags
    ensures { changes_of result ≡ changes action }
{
    match action {
        Action::Alu(_, _, _, _, _) => ALL,
        Action::Mov(_, _, _) => NONE,
        Action::Extend { .. } => NONE,
        Action::Lea(_, _) => NONE,
        Action::One(op, _, _) => one_changes(op),
        Action::Wide(_, _, _, _, _) => ALL,
        Action::Imul(_, _, _) => ALL,
        Action::ImulBy(_, _, _, _) => ALL,
        Action::Shift(kind, _, _, _) => shift_changes(kind),
        Action::ShiftBy(kind, _, _, _) => shift_changes(kind),
        Action::Bswap(_, _) => NONE,
        Action::Sign(_, _, _) => NONE,
        Action::Set(_, _) => NONE,
        Action::Cmov(_, _, _, _) => NONE,
    }
}
