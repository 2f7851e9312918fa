//! Operations on words, with the flags that they leave.

ghost use Rattle.std.specs.Prelude.{◌≡◌, ◌<◌};
ghost use Rattle.jz_words.specs.Sizes.{modulus};
ghost use Rattle.x64_insn.specs.Rows.{Does, alu_row, both_row, carry_read, count_value, division_event, imul_row, one_row, shift_row, wide_row, wide_word_row, with_both, writes_operand};
ghost use Rattle.x64_insn.specs.InnerRows.{product_kind, quotient_kind};

use crate::answer::{alu_answer, one_answer};
use crate::bus::Bus;
use crate::conditions::known;
use crate::operands::{
    Ending, access_event, access_events, finish, operand_value, put, reg_word, set_reg,
};
use crate::products::{
    DoubleAnswer, low_product_answer, product_answer, quotient_answer, signed_product_answer,
    signed_quotient_answer,
};
use crate::shifts::{masked, shift_answer};
use crate::types::{Alu, Count, FaultKind, Flag, One, Operand, Reg, Shift, State, StepLeak, Wide};
use jz_words::{Size, Word};

/// The carry that ADC and SBB read.
fn carry_read(alu: Alu, state: &State) -> Option<bool>
    ensures { result ≡ carry_read alu state.now }
{
    match alu {
        Alu::Adc | Alu::Sbb => known(state, Flag::Cf),
        Alu::Add | Alu::Or | Alu::And | Alu::Sub | Alu::Xor | Alu::Cmp | Alu::Test => Some(false),
    }
}

/// CMP and TEST write flags alone.
fn writes_operand(alu: Alu) -> bool
    ensures { result ≡ writes_operand alu }
{
    match alu {
        Alu::Cmp | Alu::Test => false,
        Alu::Add | Alu::Or | Alu::Adc | Alu::Sbb | Alu::And | Alu::Sub | Alu::Xor => true,
    }
}

/// An operation on two operands.
#[tactic(auto, unfolding(crate::specs::Rows::alu_row))]
pub(crate) fn alu<B: Bus>(
    alu: Alu,
    size: Size,
    to: &Operand,
    from: &Operand,
    next: u64,
    state: &mut State,
    bus: &mut B,
) -> Result<StepLeak, FaultKind>
    ensures { Does (alu_row alu size to.now from.now next) result
        state.old state.new (B.bytes bus.old) (B.bytes bus.new) }
{
    let Some(a) = operand_value(to, size, next, state, bus) else {
        return Err(FaultKind::BadAddress);
    };
    let Some(b) = operand_value(from, size, next, state, bus) else {
        return Err(FaultKind::BadAddress);
    };
    let Some(carry) = carry_read(alu, state) else {
        return Err(FaultKind::UndefinedFlag);
    };
    let answer = alu_answer(alu, a, b, carry);
    let flags = answer.flags;
    let leak = access_events(to, from, next, state);
    let end = Ending { next, flags, leak };
    if writes_operand(alu) {
        put(to, size, answer.value, end, state, bus)
    } else {
        finish(end, state, bus)
    }
}

/// An operation on one operand.
#[tactic(auto, unfolding(crate::specs::Rows::one_row))]
pub(crate) fn one<B: Bus>(
    one: One,
    size: Size,
    rm: &Operand,
    next: u64,
    state: &mut State,
    bus: &mut B,
) -> Result<StepLeak, FaultKind>
    ensures { Does (one_row one size rm.now next) result
        state.old state.new (B.bytes bus.old) (B.bytes bus.new) }
{
    let Some(a) = operand_value(rm, size, next, state, bus) else {
        return Err(FaultKind::BadAddress);
    };
    let answer = one_answer(one, a, state.flags);
    let flags = answer.flags;
    let leak = access_event(rm, next, state);
    let end = Ending { next, flags, leak };
    put(rm, size, answer.value, end, state, bus)
}

/// How far a shift goes.
fn count_value(count: Count, state: &State) -> u32
    ensures { result ≡ count_value count state.now }
{
    match count {
        Count::Imm(count) => count as u32,
        Count::Cl => reg_word(state, Size::S8, Reg::Rcx).bits() as u32,
    }
}

/// A rotation or a shift, which accesses its operand whatever the count.
#[tactic(auto, unfolding(crate::specs::Rows::shift_row))]
pub(crate) fn shift<B: Bus>(
    shift: Shift,
    size: Size,
    rm: &Operand,
    count: Count,
    next: u64,
    state: &mut State,
    bus: &mut B,
) -> Result<StepLeak, FaultKind>
    ensures { Does (shift_row shift size rm.now count next) result
        state.old state.new (B.bytes bus.old) (B.bytes bus.new) }
{
    let Some(a) = operand_value(rm, size, next, state, bus) else {
        return Err(FaultKind::BadAddress);
    };
    let turns = masked(size, count_value(count, state));
    let answer = shift_answer(shift, a, turns, state.flags);
    let flags = answer.flags;
    let leak = access_event(rm, next, state);
    let end = Ending { next, flags, leak };
    put(rm, size, answer.value, end, state, bus)
}

/// IMUL of a word and an operand: the low word of the product goes to the register.
#[tactic(auto, unfolding(crate::specs::Rows::imul_row))]
pub(crate) fn imul<B: Bus>(
    size: Size,
    reg: Reg,
    a: Word,
    rm: &Operand,
    next: u64,
    state: &mut State,
    bus: &mut B,
) -> Result<StepLeak, FaultKind>
    requires { a.size ≡ size }
    ensures { Does (imul_row size reg a.bits rm.now next) result
        state.old state.new (B.bytes bus.old) (B.bytes bus.new) }
{
    let Some(b) = operand_value(rm, size, next, state, bus) else {
        return Err(FaultKind::BadAddress);
    };
    let answer = low_product_answer(a, b);
    let flags = answer.flags;
    let leak = access_event(rm, next, state);
    let end = Ending { next, flags, leak };
    put(&Operand::Reg(reg), size, answer.value, end, state, bus)
}

/// The low word to RAX, the high word to RDX.
fn set_both(state: &mut State, size: Size, answer: DoubleAnswer)
    requires high { answer.high < modulus size }
    requires low { answer.low < modulus size }
    ensures { state.new ≡ with_both state.old size answer }
{
    set_reg(state, size, Reg::Rax, answer.low);
    set_reg(state, size, Reg::Rdx, answer.high);
}

/// What a product or a quotient leaves.
fn put_both<B: Bus>(
    size: Size,
    answer: DoubleAnswer,
    next: u64,
    leak: StepLeak,
    state: &mut State,
    bus: &B,
) -> Result<StepLeak, FaultKind>
    requires high { answer.high < modulus size }
    requires low { answer.low < modulus size }
    ensures { Does (both_row size answer next leak) result
        state.old state.new (B.bytes bus.now) (B.bytes bus.now) }
{
    let flags = answer.flags;
    let end = Ending { next, flags, leak };
    set_both(state, size, answer);
    finish(end, state, bus)
}

/// A division shows high word, low word and divisor.
fn division_event(
    rm: &Operand,
    high: Word,
    low: Word,
    divisor: Word,
    next: u64,
    state: &State,
) -> StepLeak
    ensures { result ≡ division_event rm.now high.bits low.bits divisor.bits next state.now }
{
    let access = access_event(rm, next, state);
    StepLeak {
        branch: None,
        addr: access.addr,
        div: Some((high.bits(), low.bits(), divisor.bits())),
    }
}

/// MUL or IMUL of RAX by a word.
fn multiply<B: Bus>(
    signed: bool,
    b: Word,
    rm: &Operand,
    next: u64,
    state: &mut State,
    bus: &B,
) -> Result<StepLeak, FaultKind>
    ensures { Does (wide_word_row (product_kind signed) b.size rm.now b.bits next) result
        state.old state.new (B.bytes bus.now) (B.bytes bus.now) }
{
    let size = b.size();
    let rax = reg_word(state, size, Reg::Rax);
    let answer = if signed {
        signed_product_answer(rax, b)
    } else {
        product_answer(rax, b)
    };
    let leak = access_event(rm, next, state);
    put_both(size, answer, next, leak, state, bus)
}

/// DIV or IDIV of RDX and RAX by a word.
fn divide<B: Bus>(
    signed: bool,
    divisor: Word,
    rm: &Operand,
    next: u64,
    state: &mut State,
    bus: &B,
) -> Result<StepLeak, FaultKind>
    ensures { Does (wide_word_row (quotient_kind signed) divisor.size rm.now divisor.bits next)
        result state.old state.new (B.bytes bus.now) (B.bytes bus.now) }
{
    let size = divisor.size();
    let high = reg_word(state, size, Reg::Rdx);
    let low = reg_word(state, size, Reg::Rax);
    let quotient = if signed {
        signed_quotient_answer(high, low, divisor)
    } else {
        quotient_answer(high, low, divisor)
    };
    let Some(answer) = quotient else {
        return Err(FaultKind::Divide);
    };
    let leak = division_event(rm, high, low, divisor, next, state);
    put_both(size, answer, next, leak, state, bus)
}

/// A product or a quotient over RDX and RAX.
#[tactic(auto, unfolding(crate::specs::Rows::wide_row))]
pub(crate) fn wide<B: Bus>(
    wide: Wide,
    size: Size,
    rm: &Operand,
    next: u64,
    state: &mut State,
    bus: &B,
) -> Result<StepLeak, FaultKind>
    ensures { Does (wide_row wide size rm.now next) result
        state.old state.new (B.bytes bus.now) (B.bytes bus.now) }
{
    let Some(word) = operand_value(rm, size, next, state, bus) else {
        return Err(FaultKind::BadAddress);
    };
    match wide {
        Wide::Mul => multiply(false, word, rm, next, state, bus),
        Wide::Imul => multiply(true, word, rm, next, state, bus),
        Wide::Div => divide(false, word, rm, next, state, bus),
        Wide::Idiv => divide(true, word, rm, next, state, bus),
    }
}
