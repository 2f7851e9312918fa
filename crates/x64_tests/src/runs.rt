//! Runs of the machine over some bytes, with 24 bytes around the top of a stack.

use crate::machines::{
    BASE, flags, write_answer, write_flags, write_loaded, write_shown, write_words,
};
use crate::numbers::{bytes, hexadecimal};
use jz_leak::MemMap;
use std::alloc::{AllocError, Global};
use x64_insn::{Reg, State};
use x64_machine::Machine;

/// Sixteen bytes below an address, all 0, and the word at it, also over the last address.
fn stack(alloc: Global, at: u64, word: u64) -> Result<MemMap, AllocError> {
    let [a, b, c, d, e, f, g, h] = word.to_le_bytes();
    let low = at.wrapping_sub(16);
    let mut map = MemMap::new(alloc);
    map.add(
        low,
        &[0, 0, 0, 0, 0, 0, 0, 0, 0, 0, 0, 0, 0, 0, 0, 0, a, b, c, d],
    )?;
    map.add(low.wrapping_add(20), &[e, f, g, h])?;
    Ok(map)
}

/// The registers RAX to RDI.
fn registers(text: &str) -> [u64; 16] {
    let mut regs = [0; 16];
    for (number, word) in text.split_whitespace().enumerate() {
        if number < 8 {
            regs[number] = hexadecimal(word);
        }
    }
    regs
}

fn memory(alloc: Global, text: &str) -> Result<MemMap, AllocError> {
    let (at, word) = text.split_once(' ').unwrap_or((text, ""));
    stack(alloc, hexadecimal(at), hexadecimal(word))
}

/// The state of a column, as `400000 FFFFF 0 0 0 0 1000 0 6 5`: RIP, the flags and the registers.
fn state(text: &str) -> State {
    let (rip, rest) = text.split_once(' ').unwrap_or((text, ""));
    let (flag_letters, words) = rest.split_once(' ').unwrap_or((rest, ""));
    State {
        regs: registers(words),
        rip: hexadecimal(rip),
        flags: flags(flag_letters),
    }
}

fn machine(alloc: Global, code: &str, before: &str, mem: &str) -> Result<Machine, AllocError> {
    let mem = memory(alloc, mem)?;
    let code = bytes(alloc, code)?;
    Machine::new(alloc, code.as_slice(), BASE, state(before), mem)
}

/// Runs by so many steps, or by one step whose events are shown.
fn write_run(text: &mut String, machine: &mut Machine, word: &str) -> Result<(), AllocError> {
    if word == "step" {
        let (answer, leak) = machine.step();
        write_answer(text, answer)?;
        return write_shown(text, leak);
    }
    write_answer(text, machine.run(hexadecimal(word)))
}

fn write_runs(text: &mut String, machine: &mut Machine, counts: &str) -> Result<(), AllocError> {
    for word in counts.split_whitespace() {
        write_run(text, machine, word)?;
    }
    Ok(())
}

/// RIP, the flags and the registers; then the word at the top of the stack.
fn write_state(text: &mut String, machine: &Machine) -> Result<(), AllocError> {
    let state = machine.state;
    let rip = state.rip;
    write!(text, " | {rip:x}")?;
    write_flags(text, state.flags)?;
    write_words(text, &state.regs[..8])?;
    text.push_str(" |")?;
    write_loaded(text, machine, state.reg(Reg::Rsp))
}

fn write_row(text: &mut String, machine: &mut Machine, counts: &str) -> Result<(), AllocError> {
    write_runs(text, machine, counts)?;
    write_state(text, machine)
}

fn ran_by(alloc: Global, mut machine: Machine, counts: &str) -> Result<String, AllocError> {
    let mut text = String::new(alloc);
    write_row(&mut text, &mut machine, counts)?;
    Ok(text)
}

/// The answer to `run`: what each run answers, and what is left.
pub fn ran(alloc: Global, question: &str) -> Result<String, AllocError> {
    let columns: Vec<&str> = question.split(" | ").collect(alloc)?;
    match columns.as_slice() {
        [counts, code, before, mem] => ran_by(alloc, machine(alloc, code, before, mem)?, counts),
        _ => Ok(String::new(alloc)),
    }
}
