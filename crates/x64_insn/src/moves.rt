//! Moves, extensions, and what else writes a word without flags.

ghost use Rattle.std.specs.Prelude.{◌≡◌, ◌<◌, ◌-◌, nat_lt, if◌then◌else◌};
ghost use Rattle.jz_words.specs.Sizes.{half, modulus};
ghost use Rattle.x64_insn.specs.Rows.{Does, bswap_row, cmov_row, extend_row, extended, lea_row, mov_row, set_row, sign_row};

use crate::bus::Bus;
use crate::conditions::holds;
use crate::operands::{
    Ending, access_event, access_events, address_of, event, operand_value, put, reg_word,
};
use crate::types::{Cond, FaultKind, Mem, Operand, Reg, State, StepLeak};
use jz_words::{Size, Word, residue, swap_bytes};

/// MOV.
#[tactic(auto, unfolding(crate::specs::Rows::mov_row))]
pub(crate) fn mov<B: Bus>(
    size: Size,
    to: &Operand,
    from: &Operand,
    next: u64,
    state: &mut State,
    bus: &mut B,
) -> Result<StepLeak, FaultKind>
    ensures { Does (mov_row size to.now from.now next) result
        state.old state.new (B.bytes bus.old) (B.bytes bus.new) }
{
    let Some(value) = operand_value(from, size, next, state, bus) else {
        return Err(FaultKind::BadAddress);
    };
    let flags = state.flags;
    let leak = access_events(to, from, next, state);
    let end = Ending { next, flags, leak };
    put(to, size, value.bits(), end, state, bus)
}

/// A word as one of another size: with its sign, or with zeros before it.
fn extended(signed: bool, to: Size, value: Word) -> u64
    ensures value { result ≡ extended signed to value.size value.bits }
    ensures fits { result < modulus to }
{
    if signed {
        residue(to, value.signed()).bits()
    } else {
        Word::truncate(to, value.bits()).bits()
    }
}

/// How a word becomes one of another size: with its sign, or with zeros before it.
#[derive(Clone, Copy)]
pub(crate) struct Extension {
    pub(crate) signed: bool,
    pub(crate) to: Size,
    pub(crate) from: Size,
}

/// MOVZX, MOVSX and MOVSXD.
#[tactic(auto, unfolding(crate::specs::Rows::extend_row))]
pub(crate) fn extend<B: Bus>(
    kind: Extension,
    reg: Reg,
    rm: &Operand,
    next: u64,
    state: &mut State,
    bus: &mut B,
) -> Result<StepLeak, FaultKind>
    ensures { Does (extend_row kind.signed kind.to kind.from reg rm.now next) result
        state.old state.new (B.bytes bus.old) (B.bytes bus.new) }
{
    let Some(value) = operand_value(rm, kind.from, next, state, bus) else {
        return Err(FaultKind::BadAddress);
    };
    let word = extended(kind.signed, kind.to, value);
    let flags = state.flags;
    let leak = access_event(rm, next, state);
    let end = Ending { next, flags, leak };
    put(&Operand::Reg(reg), kind.to, word, end, state, bus)
}

/// LEA: the address, and no access.
#[tactic(auto, unfolding(crate::specs::Rows::lea_row))]
pub(crate) fn lea<B: Bus>(
    reg: Reg,
    mem: &Mem,
    next: u64,
    state: &mut State,
    bus: &mut B,
) -> Result<StepLeak, FaultKind>
    ensures { Does (lea_row reg mem.now next) result
        state.old state.new (B.bytes bus.old) (B.bytes bus.new) }
{
    let address = address_of(state, next, mem);
    let flags = state.flags;
    let leak = event(None);
    let end = Ending { next, flags, leak };
    put(&Operand::Reg(reg), Size::S64, address, end, state, bus)
}

/// BSWAP.
#[tactic(auto, unfolding(crate::specs::Rows::bswap_row))]
pub(crate) fn bswap<B: Bus>(
    size: Size,
    reg: Reg,
    next: u64,
    state: &mut State,
    bus: &mut B,
) -> Result<StepLeak, FaultKind>
    ensures { Does (bswap_row size reg next) result
        state.old state.new (B.bytes bus.old) (B.bytes bus.new) }
{
    let word = swap_bytes(reg_word(state, size, reg));
    let flags = state.flags;
    let leak = event(None);
    let end = Ending { next, flags, leak };
    put(&Operand::Reg(reg), size, word.bits(), end, state, bus)
}

/// The highest bit of a word at each place.
fn signs(word: Word) -> u64
    ensures value { result
        ≡ (if nat_lt word.bits (half word.size) then 0 else modulus word.size - 1) }
    ensures fits { result < modulus word.size }
{
    if word.bits() < word.size().half() {
        0
    } else {
        residue(word.size(), -1).bits()
    }
}

/// CDQ and CQO.
#[tactic(auto, unfolding(crate::specs::Rows::sign_row))]
pub(crate) fn sign<B: Bus>(
    size: Size,
    next: u64,
    state: &mut State,
    bus: &mut B,
) -> Result<StepLeak, FaultKind>
    ensures { Does (sign_row size next) result
        state.old state.new (B.bytes bus.old) (B.bytes bus.new) }
{
    let value = signs(reg_word(state, size, Reg::Rax));
    let flags = state.flags;
    let leak = event(None);
    let end = Ending { next, flags, leak };
    put(&Operand::Reg(Reg::Rdx), size, value, end, state, bus)
}

/// SETcc. Its byte has to be valid before the condition is read.
#[tactic(auto, unfolding(crate::specs::Rows::set_row))]
pub(crate) fn set<B: Bus>(
    cond: Cond,
    rm: &Operand,
    next: u64,
    state: &mut State,
    bus: &mut B,
) -> Result<StepLeak, FaultKind>
    ensures { Does (set_row cond rm.now next) result
        state.old state.new (B.bytes bus.old) (B.bytes bus.new) }
{
    let Some(_) = operand_value(rm, Size::S8, next, state, bus) else {
        return Err(FaultKind::BadAddress);
    };
    let Some(holds) = holds(cond, state) else {
        return Err(FaultKind::UndefinedFlag);
    };
    let flags = state.flags;
    let leak = access_event(rm, next, state);
    let end = Ending { next, flags, leak };
    put(rm, Size::S8, u64::from(holds), end, state, bus)
}

/// CMOVcc. It reads its operand whatever the condition, and writes the register, with its own word
/// where that does not hold.
#[tactic(auto, unfolding(crate::specs::Rows::cmov_row))]
pub(crate) fn cmov<B: Bus>(
    cond: Cond,
    size: Size,
    reg: Reg,
    rm: &Operand,
    next: u64,
    state: &mut State,
    bus: &mut B,
) -> Result<StepLeak, FaultKind>
    ensures { Does (cmov_row cond size reg rm.now next) result
        state.old state.new (B.bytes bus.old) (B.bytes bus.new) }
{
    let Some(value) = operand_value(rm, size, next, state, bus) else {
        return Err(FaultKind::BadAddress);
    };
    let Some(holds) = holds(cond, state) else {
        return Err(FaultKind::UndefinedFlag);
    };
    let word = if holds {
        value
    } else {
        reg_word(state, size, reg)
    };
    let flags = state.flags;
    let leak = access_event(rm, next, state);
    let end = Ending { next, flags, leak };
    put(&Operand::Reg(reg), size, word.bits(), end, state, bus)
}
