//! What each instruction does.

ghost use Rattle.std.specs.Prelude.{◌≡◌, true, false};
ghost use Rattle.x64_insn.specs.Rows.{Does, effect_of};
ghost use Rattle.x64_insn.specs.InnerRows.{is_jump, is_operation};

use crate::arithmetic::{alu, imul, one, shift, wide};
use crate::bus::Bus;
use crate::jumps::{call, jcc, jmp, ret};
use crate::moves::{Extension, bswap, cmov, extend, lea, mov, set, sign};
use crate::operands::reg_word;
use crate::types::{FaultKind, Insn, State, StepLeak};
use jz_words::{Size, residue};

/// An operation that sets flags by its result.
fn operation<B: Bus>(
    insn: &Insn,
    next: u64,
    state: &mut State,
    bus: &mut B,
) -> Result<StepLeak, FaultKind>
    requires { is_operation insn.now ≡ true }
    ensures { Does (effect_of insn.now next) result
        state.old state.new (B.bytes bus.old) (B.bytes bus.new) }
{
    match insn {
        Insn::Alu(op, size, to, from) => alu(*op, *size, to, from, next, state, bus),
        Insn::One(op, size, rm) => one(*op, *size, rm, next, state, bus),
        Insn::Wide(op, size, rm) => wide(*op, *size, rm, next, state, bus),
        Insn::Imul(size, reg, rm) => {
            let factor = reg_word(state, *size, *reg);
            imul(*size, *reg, factor, rm, next, state, bus)
        }
        Insn::ImulBy(size, reg, rm, by) => {
            let factor = residue(*size, *by as i128);
            imul(*size, *reg, factor, rm, next, state, bus)
        }
        Insn::Shift(kind, size, rm, count) => shift(*kind, *size, rm, *count, next, state, bus),
        _ => unreachable!(),
    }
}

/// A jump, a call or a return.
fn jump<B: Bus>(
    insn: &Insn,
    next: u64,
    state: &mut State,
    bus: &mut B,
) -> Result<StepLeak, FaultKind>
    requires { is_jump insn.now ≡ true }
    ensures { Does (effect_of insn.now next) result
        state.old state.new (B.bytes bus.old) (B.bytes bus.new) }
{
    match insn {
        Insn::Jcc(cond, _, disp) => jcc(*cond, *disp, next, state, bus),
        Insn::Jmp(_, disp) => jmp(*disp, next, state, bus),
        Insn::Call(disp) => call(*disp, next, state, bus),
        Insn::Ret => ret(state, bus),
        _ => unreachable!(),
    }
}

/// What an instruction does, by the table; `next` is the address of the instruction behind it. A
/// fault changes nothing.
pub fn effect<B: Bus>(
    insn: &Insn,
    next: u64,
    state: &mut State,
    bus: &mut B,
) -> Result<StepLeak, FaultKind>
    ensures { Does (effect_of insn.now next) result
        state.old state.new (B.bytes bus.old) (B.bytes bus.new) }
{
    match insn {
        Insn::Mov(size, to, from) => mov(*size, to, from, next, state, bus),
        Insn::Extend {
            signed,
            to,
            from,
            reg,
            rm,
        } => {
            let kind = Extension {
                signed: *signed,
                to: *to,
                from: *from,
            };
            extend(kind, *reg, rm, next, state, bus)
        }
        Insn::Lea(reg, mem) => lea(*reg, mem, next, state, bus),
        Insn::Bswap(size, reg) => bswap(*size, *reg, next, state, bus),
        Insn::Cdq => sign(Size::S32, next, state, bus),
        Insn::Cqo => sign(Size::S64, next, state, bus),
        Insn::Set(cond, rm) => set(*cond, rm, next, state, bus),
        Insn::Cmov(cond, size, reg, rm) => cmov(*cond, *size, *reg, rm, next, state, bus),
        Insn::Jcc(_, _, _) | Insn::Jmp(_, _) | Insn::Call(_) | Insn::Ret => {
            jump(insn, next, state, bus)
        }
        Insn::Alu(_, _, _, _)
        | Insn::One(_, _, _)
        | Insn::Wide(_, _, _)
        | Insn::Imul(_, _, _)
        | Insn::ImulBy(_, _, _, _)
        | Insn::Shift(_, _, _, _) => operation(insn, next, state, bus),
    }
}
