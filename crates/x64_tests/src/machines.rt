//! One step of the machine, of an instruction over four registers and eight bytes of memory.

use crate::numbers::{bytes, hexadecimal};
use crate::spellings::write_decoded;
use jz_leak::MemMap;
use std::alloc::{AllocError, Global};
use x64_insn::{FlagVal, Size, State, StepLeak};
use x64_machine::{Machine, Step};

/// What a column says: RAX, RCX, RDX, RBX and the eight bytes at RSI, and the flags.
#[derive(Clone, Copy)]
struct Column {
    words: [u64; 5],
    flags: [FlagVal; 5],
}

pub const BASE: u64 = 0x40_0000;

const SLOT: u64 = 0x2000;

const FAULTS: [&str; 4] = ["no_insn", "bad_address", "divide", "undefined_flag"];

fn flag(letter: u8) -> FlagVal {
    match letter {
        b'T' => FlagVal::True,
        b'F' => FlagVal::False,
        _ => FlagVal::Undefined,
    }
}

/// Flags by their letters; undefined in any other text.
pub fn flags(text: &str) -> [FlagVal; 5] {
    match text.as_bytes() {
        [of, cf, sf, pf, zf] => [flag(*of), flag(*cf), flag(*sf), flag(*pf), flag(*zf)],
        _ => [FlagVal::Undefined; 5],
    }
}

fn column_of(text: &str) -> Column {
    let mut column = Column {
        words: [0; 5],
        flags: [FlagVal::Undefined; 5],
    };
    for (place, word) in text.split_whitespace().enumerate() {
        if place < 5 {
            column.words[place] = hexadecimal(word);
        } else {
            column.flags = flags(word);
        }
    }
    column
}

/// A machine over the code of a row, before its step.
fn machine(alloc: Global, code: &[u8], before: Column) -> Result<Machine, AllocError> {
    let [rax, rcx, rdx, rbx, slot] = before.words;
    let mut mem = MemMap::new(alloc);
    mem.add(SLOT, &slot.to_le_bytes())?;
    let regs = [rax, rcx, rdx, rbx, 0, 0, SLOT, 0, 0, 0, 0, 0, 0, 0, 0, 0];
    let state = State {
        regs,
        rip: BASE,
        flags: before.flags,
    };
    Machine::new(alloc, code, BASE, state, mem)
}

/// Appends words in hexadecimal.
pub fn write_words(text: &mut String, words: &[u64]) -> Result<(), AllocError> {
    for word in words {
        write!(text, " {word:x}")?;
    }
    Ok(())
}

fn letter(flag: FlagVal) -> char {
    match flag {
        FlagVal::True => 'T',
        FlagVal::False => 'F',
        FlagVal::Undefined => 'U',
    }
}

/// Appends flags by their letters.
pub fn write_flags(text: &mut String, flags: [FlagVal; 5]) -> Result<(), AllocError> {
    text.push(' ')?;
    for flag in flags {
        text.push(letter(flag))?;
    }
    Ok(())
}

/// Appends the word at an address, `-` where it is not valid.
pub fn write_loaded(text: &mut String, machine: &Machine, at: u64) -> Result<(), AllocError> {
    match machine.mem.map.load(at, Size::S64) {
        Some(word) => write!(text, " {word:x}"),
        None => text.push_str(" -"),
    }
}

fn branch(branch: Option<bool>) -> &'static str {
    match branch {
        Some(true) => " b1",
        Some(false) => " b0",
        None => "",
    }
}

fn write_access(text: &mut String, at: Option<u64>) -> Result<(), AllocError> {
    match at {
        Some(SLOT) => text.push_str(" a"),
        Some(at) => write!(text, " a:{at:x}"),
        None => Ok(()),
    }
}

fn write_division(text: &mut String, div: Option<(u64, u64, u64)>) -> Result<(), AllocError> {
    match div {
        Some((high, low, divisor)) => write!(text, " d:{high:x}:{low:x}:{divisor:x}"),
        None => Ok(()),
    }
}

/// Appends what a step shows: `b0` and `b1` a branch, `a` an access, to the slot where no address
/// is told, `d` a division, `-` nothing.
pub fn write_shown(text: &mut String, leak: StepLeak) -> Result<(), AllocError> {
    if leak.branch.is_none() && leak.addr.is_none() && leak.div.is_none() {
        return text.push_str(" -");
    }
    text.push_str(branch(leak.branch))?;
    write_access(text, leak.addr)?;
    write_division(text, leak.div)
}

/// Appends what the machine answered.
pub fn write_answer(text: &mut String, step: Step) -> Result<(), AllocError> {
    match step {
        Step::Running => text.push_str(" running"),
        Step::Ended => text.push_str(" ended"),
        Step::Fault(fault) => {
            let name = FAULTS[fault as usize];
            write!(text, " {name}")
        }
    }
}

/// The columns after a step: registers with the slot and flags, and how far RIP moved.
fn write_after(text: &mut String, machine: &Machine) -> Result<(), AllocError> {
    let state = machine.state;
    text.push_str(" |")?;
    write_words(text, &state.regs[..4])?;
    write_loaded(text, machine, SLOT)?;
    write_flags(text, state.flags)?;
    let distance = state.rip.wrapping_sub(BASE).cast_signed();
    write!(text, " | {distance} |")
}

fn write_step(text: &mut String, mut machine: Machine) -> Result<(), AllocError> {
    let (answer, leak) = machine.step();
    write_after(text, &machine)?;
    write_shown(text, leak)?;
    text.push_str(" |")?;
    write_answer(text, answer)
}

fn write_row(text: &mut String, code: &[u8], machine: Machine) -> Result<(), AllocError> {
    write_decoded(text, code)?;
    write_step(text, machine)
}

/// The answer to `step`: the instruction, and what it leaves.
pub fn stepped(alloc: Global, question: &str) -> Result<String, AllocError> {
    let (code, before) = question.split_once(" | ").unwrap_or((question, ""));
    let code = bytes(alloc, code)?;
    let machine = machine(alloc, code.as_slice(), column_of(before))?;
    let mut text = String::new(alloc);
    write_row(&mut text, code.as_slice(), machine)?;
    Ok(text)
}
