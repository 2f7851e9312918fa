//! Runs of the source, and of the bytes on the machine.

ghost use Rattle.std.specs.Prelude.{◌≤◌};

use crate::showing::{changed, results};
use jz_interp::{Input, Outcome, interpret, takes};
use jz_leak::MemMap;
use jz_listing::{Arg, Compiled};
use jz_meaning::{Kind, kind_of};
use jz_tree::{Param, Seq};
use jz_types::Typed;
use jz_words::{Size, Word};
use std::alloc::{AllocError, Global};
use x64_insn::{FlagVal, Reg, State};
use x64_machine::{Machine, Step};

/// Where the 64 bytes of the memory begin.
pub const DATA: u64 = 65_536;

/// How many bytes these are.
pub const LENGTH: u64 = 64;

/// Where the code stands.
const CODE: u64 = 0x40_0000;

/// Where the return address stands: behind the memory and all that a frame may have.
const RETURN_SLOT: u64 = 131_720;

/// How many bytes the machine's memory has, from the 64 bytes to the return address.
const MACHINE_LENGTH: usize = 66_192;

/// How many true tests of `while` the source may make, and how many steps the machine.
const TURNS: u64 = 1000;

const STEPS: u64 = 100_000;

const ARGUMENTS: [Reg; 6] = [Reg::Rdi, Reg::Rsi, Reg::Rdx, Reg::Rcx, Reg::R8, Reg::R9];

/// The byte that stands at a place of the memory.
pub fn byte_at(place: u64) -> u8 {
    (place.wrapping_mul(37).wrapping_add(101) % 256) as u8
}

/// So many bytes that begin with the 64 ones; behind them all are 0.
fn memory(alloc: Global, length: usize) -> Result<MemMap, AllocError>
    requires { length ≤ 66_192 }
{
    let mut bytes = Vec::new(alloc);
    bytes.resize(length, 0)?;
    let mut memory = MemMap::new(alloc);
    memory.add(DATA, bytes.as_slice())?;
    for place in 0..LENGTH {
        memory.set(DATA + place, byte_at(place));
    }
    Ok(memory)
}

/// The numbers of an input.
fn numbers_of(alloc: Global, input: &str) -> Result<Seq<u64>, AllocError> {
    let mut all = Seq::new(alloc);
    for number in input.split(" ").filter(|number| !number.is_empty()) {
        all.push(number.parse::<u64>().unwrap_or(0))?;
    }
    Ok(all)
}

/// The size of a parameter's words.
fn size_of(param: &Param) -> Size {
    match kind_of(&param.var) {
        Kind::Word(size) => size,
        _ => Size::S64,
    }
}

/// The low bits of the numbers that parameters have.
fn words_of(
    alloc: Global,
    params: &Seq<Param>,
    numbers: &Seq<u64>,
) -> Result<Seq<Word>, AllocError> {
    let mut all = Seq::new(alloc);
    for (param, number) in params.as_slice().iter().zip(numbers.as_slice()) {
        all.push(Word::truncate(size_of(param), *number))?;
    }
    Ok(all)
}

/// What the run of the last function of a text comes to.
fn source_run(
    alloc: Global,
    typed: &Typed,
    numbers: &Seq<u64>,
    out: &mut String,
) -> Result<(), AllocError> {
    let funs = &typed.program().funs;
    let last = funs.len().saturating_sub(1);
    let Some(fun) = funs.get(last) else {
        return out.push_str("no function");
    };
    let words = words_of(alloc, &fun.params, numbers)?;
    if !takes(typed, last, &words) {
        return out.push_str("other parameters");
    }
    let mem = memory(alloc, LENGTH as usize)?;
    let input = Input { words, mem };
    match interpret(alloc, typed, last, &input, TURNS)? {
        Outcome::End(words, memory, _) => {
            results(&words, out)?;
            changed(&memory, out)
        }
        Outcome::Cut(_) => out.push_str(" cut"),
        Outcome::Stuck(stuck) => write!(out, " stuck {}:{}", stuck.span.line, stuck.span.col),
    }
}

/// Numbers in the argument registers; no flag is defined.
fn start(numbers: &Seq<u64>) -> State {
    let mut regs = [0xa5a5_a5a5_a5a5_a5a5; 16];
    regs[Reg::Rsp as usize] = RETURN_SLOT;
    for (reg, number) in ARGUMENTS.iter().zip(numbers.as_slice()) {
        regs[*reg as usize] = *number;
    }
    State {
        regs,
        rip: CODE,
        flags: [FlagVal::Undefined; 5],
    }
}

/// The low bits of the registers of results.
fn results_of(alloc: Global, state: &State, rets: &Seq<Arg>) -> Result<Seq<Word>, AllocError> {
    rets.try_map(
        alloc,
        |ret| Ok(Word::truncate(ret.size, state.reg(ret.reg))),
    )
}

/// The machine where the function starts.
fn loaded(alloc: Global, compiled: &Compiled, numbers: &Seq<u64>) -> Result<Machine, AllocError> {
    let code = compiled.code.as_slice();
    let memory = memory(alloc, MACHINE_LENGTH)?;
    Machine::new(alloc, code, CODE, start(numbers), memory)
}

/// What the run of the bytes comes to.
fn machine_run(
    alloc: Global,
    compiled: &Compiled,
    numbers: &Seq<u64>,
    out: &mut String,
) -> Result<(), AllocError> {
    let mut machine = loaded(alloc, compiled, numbers)?;
    match machine.run(STEPS) {
        Step::Running => out.push_str(" cut"),
        Step::Fault(_) => out.push_str(" fault"),
        Step::Ended => {
            let words = results_of(alloc, &machine.state, &compiled.rets)?;
            results(&words, out)?;
            changed(&machine.mem.map, out)
        }
    }
}

/// Whether the bytes come to what the source comes to, for each input.
pub fn compare(
    alloc: Global,
    typed: &Typed,
    compiled: &Compiled,
    inputs: &str,
    out: &mut String,
) -> Result<(), AllocError> {
    for input in inputs.split(" ; ") {
        let numbers = numbers_of(alloc, input)?;
        let mut wanted = String::new(alloc);
        source_run(alloc, typed, &numbers, &mut wanted)?;
        let mut came = String::new(alloc);
        machine_run(alloc, compiled, &numbers, &mut came)?;
        if wanted.as_str() != came.as_str() {
            return write!(out, "of {input}:{wanted} in the source,{came} in the bytes");
        }
    }
    out.push_str("same")
}
