//! Jumps, calls and returns.

ghost use Rattle.std.specs.Prelude.{◌≡◌, pos, ◌-ℤ◌};
ghost use Rattle.jz_words.specs.declared.size.Size.TheVariants.{S64};
ghost use Rattle.jz_words.specs.Words.{residue};
ghost use Rattle.x64_insn.specs.declared.types.Reg.TheVariants as reg;
ghost use Rattle.x64_insn.specs.Rows.{Does, call_row, jcc_row, jmp_row, reg_value, ret_row, target_of};

use crate::bus::Bus;
use crate::conditions::holds;
use crate::operands::{event, set_reg};
use crate::types::{Cond, FaultKind, Reg, State, StepLeak};
use jz_words::{Size, residue};

/// The place that a displacement names, counted from the next instruction.
fn target_of(next: u64, disp: i32) -> u64
    ensures { result ≡ target_of next disp }
{
    residue(Size::S64, next as i128 + disp as i128).bits()
}

/// Jcc.
#[tactic(auto, unfolding(crate::specs::Rows::jcc_row))]
pub(crate) fn jcc<B: Bus>(
    cond: Cond,
    disp: i32,
    next: u64,
    state: &mut State,
    bus: &B,
) -> Result<StepLeak, FaultKind>
    ensures { Does (jcc_row cond disp next) result
        state.old state.new (B.bytes bus.now) (B.bytes bus.now) }
{
    let Some(taken) = holds(cond, state) else {
        return Err(FaultKind::UndefinedFlag);
    };
    state.rip = if taken { target_of(next, disp) } else { next };
    Ok(StepLeak {
        branch: Some(taken),
        addr: None,
        div: None,
    })
}

/// JMP.
#[tactic(auto, unfolding(crate::specs::Rows::jmp_row))]
pub(crate) fn jmp<B: Bus>(
    disp: i32,
    next: u64,
    state: &mut State,
    bus: &B,
) -> Result<StepLeak, FaultKind>
    ensures { Does (jmp_row disp next) result
        state.old state.new (B.bytes bus.now) (B.bytes bus.now) }
{
    state.rip = target_of(next, disp);
    Ok(event(None))
}

/// The slot below the stack.
fn slot_below(state: &State) -> u64
    ensures { result ≡ residue S64 (pos (reg_value state.now reg.Rsp) -ℤ pos 8) }
{
    residue(Size::S64, state.reg(Reg::Rsp) as i128 - 8).bits()
}

/// CALL: the address of the next instruction goes on the stack.
#[tactic(auto, unfolding(crate::specs::Rows::call_row))]
pub(crate) fn call<B: Bus>(
    disp: i32,
    next: u64,
    state: &mut State,
    bus: &mut B,
) -> Result<StepLeak, FaultKind>
    ensures { Does (call_row disp next) result
        state.old state.new (B.bytes bus.old) (B.bytes bus.new) }
{
    let slot = slot_below(state);
    if !bus.store(slot, Size::S64, next) {
        return Err(FaultKind::BadAddress);
    }
    set_reg(state, Size::S64, Reg::Rsp, slot);
    state.rip = target_of(next, disp);
    Ok(event(Some(slot)))
}

/// RET: the address on the stack is taken off it.
#[tactic(auto, unfolding(crate::specs::Rows::ret_row))]
pub(crate) fn ret<B: Bus>(state: &mut State, bus: &B) -> Result<StepLeak, FaultKind>
    ensures { Does ret_row result state.old state.new (B.bytes bus.now) (B.bytes bus.now) }
{
    let rsp = state.reg(Reg::Rsp);
    let Some(target) = bus.load(rsp, Size::S64) else {
        return Err(FaultKind::BadAddress);
    };
    set_reg(state, Size::S64, Reg::Rsp, rsp.wrapping_add(8));
    state.rip = target;
    Ok(event(Some(rsp)))
}
