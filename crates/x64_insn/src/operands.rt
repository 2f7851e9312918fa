//! The operands of an instruction: their words, the addresses that they access, and what a row ends
//! with.

ghost use Rattle.std.specs.Prelude.{◌≡◌, ◌<◌, ◌+◌, ◌^◌, IfSome, None, pos, ◌+ℤ◌};
ghost use Rattle.std.specs.Option.{option_map};
ghost use Rattle.jz_words.specs.Sizes.{modulus};
ghost use Rattle.x64_insn.specs.Rows.{Did, Does, finished, put_row, base_value, index_value, address_of, operand_value, accessed, access_event, access_events, merged, reg_word, with_reg};

use crate::bus::Bus;
use crate::types::{Base, FaultKind, FlagVal, Mem, Operand, Reg, State, StepLeak};
use jz_words::{Size, Word, residue};

/// The lowest bits of a register.
pub(crate) fn reg_word(state: &State, size: Size, reg: Reg) -> Word
    ensures size { result.size ≡ size }
    ensures bits { result.bits ≡ reg_word state.now size reg }
{
    Word::truncate(size, state.reg(reg))
}

/// A register after a write of a size.
fn merged(size: Size, old: u64, value: u64) -> u64
    requires { value < modulus size }
    ensures { result ≡ merged size old value }
{
    match size {
        Size::S8 => old / 256 * 256 + value,
        Size::S16 => old / 65536 * 65536 + value,
        Size::S32 | Size::S64 => value,
    }
}

/// Writes a word to a register.
pub(crate) fn set_reg(state: &mut State, size: Size, reg: Reg, value: u64)
    requires { value < modulus size }
    ensures { state.new ≡ with_reg state.old size reg value }
{
    let old = state.reg(reg);
    state.regs[reg as usize] = merged(size, old, value);
}

fn base_value(state: &State, next: u64, base: Base) -> u64
    ensures { result ≡ base_value state.now next base }
{
    match base {
        Base::Absent => 0,
        Base::Reg(reg) => state.reg(reg),
        Base::Rip => next,
    }
}

fn index_value(state: &State, index: Option<(Reg, u8)>) -> u128
    ensures value { result ≡ index_value state.now index }
    ensures fits { result < 2 ^ 72 }
{
    match index {
        None => 0,
        Some((reg, scale)) => scale as u128 * state.reg(reg) as u128,
    }
}

/// The sum that an address is, not yet modulo 2^64.
fn address_sum(state: &State, next: u64, mem: &Mem) -> i128
    ensures { result
        ≡ pos (base_value state.now next mem.now.base + index_value state.now mem.now.index)
        +ℤ mem.now.disp }
{
    let base = base_value(state, next, mem.base) as i128;
    let index = index_value(state, mem.index) as i128;
    base + index + mem.disp as i128
}

/// An address: base, scaled index and displacement, modulo 2^64.
#[tactic(auto, unfolding(crate::specs::Rows::address_of))]
pub(crate) fn address_of(state: &State, next: u64, mem: &Mem) -> u64
    ensures { result ≡ address_of state.now next mem.now }
{
    residue(Size::S64, address_sum(state, next, mem)).bits()
}

/// The word of an operand, where its bytes are valid.
#[tactic(auto, unfolding(crate::specs::Rows::operand_value))]
pub(crate) fn operand_value<B: Bus>(
    operand: &Operand,
    size: Size,
    next: u64,
    state: &State,
    bus: &B,
) -> Option<Word>
    ensures value { option_map (λ w. w.bits) result
        ≡ operand_value operand.now size next state.now (B.bytes bus.now) }
    ensures size { IfSome result (λ w. w.size ≡ size) }
{
    match operand {
        Operand::Reg(reg) => Some(reg_word(state, size, *reg)),
        Operand::Imm(value) => Some(residue(size, *value as i128)),
        Operand::Mem(mem) => match bus.load(address_of(state, next, mem), size) {
            None => None,
            Some(bits) => Some(Word::new(size, bits)),
        },
    }
}

/// The address that an operand accesses.
fn accessed(operand: &Operand, next: u64, state: &State) -> Option<u64>
    ensures { result ≡ accessed operand.now next state.now }
{
    match operand {
        Operand::Reg(_) | Operand::Imm(_) => None,
        Operand::Mem(mem) => Some(address_of(state, next, mem)),
    }
}

/// What a step shows that accesses at most memory at an address.
pub(crate) fn event(addr: Option<u64>) -> StepLeak
    ensures { result ≡ record { branch = None; addr = addr; div = None } }
{
    StepLeak {
        branch: None,
        addr,
        div: None,
    }
}

/// What the access of an operand shows.
pub(crate) fn access_event(operand: &Operand, next: u64, state: &State) -> StepLeak
    ensures { result ≡ access_event operand.now next state.now }
{
    event(accessed(operand, next, state))
}

/// What the accesses of two operands show, of which at most one is in memory.
pub(crate) fn access_events(to: &Operand, from: &Operand, next: u64, state: &State) -> StepLeak
    ensures { result ≡ access_events to.now from.now next state.now }
{
    let first = accessed(to, next, state);
    let second = accessed(from, next, state);
    event(first.or(second))
}

/// What a row ends with: the address for rip, the flags, and what the step shows.
#[derive(Clone, Copy)]
pub(crate) struct Ending {
    pub(crate) next: u64,
    pub(crate) flags: [FlagVal; 5],
    pub(crate) leak: StepLeak,
}

/// Sets rip and flags.
pub(crate) fn finish<B: Bus>(end: Ending, state: &mut State, bus: &B) -> Result<StepLeak, FaultKind>
    ensures { Did (finished state.old (B.bytes bus.now) end.next end.flags end.leak) result
        state.old state.new (B.bytes bus.now) (B.bytes bus.now) }
{
    let flags = end.flags;
    state.rip = end.next;
    state.flags = flags;
    Ok(end.leak)
}

/// Writes a word to an operand, then sets rip and flags. An immediate is no place to write to.
#[tactic(auto, unfolding(crate::specs::Rows::put_row))]
pub(crate) fn put<B: Bus>(
    to: &Operand,
    size: Size,
    value: u64,
    end: Ending,
    state: &mut State,
    bus: &mut B,
) -> Result<StepLeak, FaultKind>
    requires { value < modulus size }
    ensures { Does (put_row to.now size value end.next end.flags end.leak) result
        state.old state.new (B.bytes bus.old) (B.bytes bus.new) }
{
    match to {
        Operand::Reg(reg) => set_reg(state, size, *reg, value),
        Operand::Imm(_) => return Err(FaultKind::NoInsn),
        Operand::Mem(mem) => {
            if !bus.store(address_of(state, end.next, mem), size, value) {
                return Err(FaultKind::BadAddress);
            }
        }
    }
    let flags = end.flags;
    state.rip = end.next;
    state.flags = flags;
    Ok(end.leak)
}
