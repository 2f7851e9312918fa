//! The machine: its start, a step, and a run.

ghost use Rattle.std.specs.Prelude.{◌≡◌, IfOk};
ghost use Rattle.x64_machine.specs.Steps.{at_entry, insn_at};
ghost use Rattle.x64_machine.specs.MachineRuns.{base_of, code_of, config_of, last_answer, next_of, SameCode, Starts, steps_from};

use crate::bus::MemBus;
use crate::step::Step;
use jz_leak::{MemMap, Seq};
use std::alloc::{AllocError, Global};
use x64_decode::{Decoded, decode};
use x64_insn::{Bus, FaultKind, Insn, Reg, Size, State, StepLeak, effect};

/// A machine that runs the code from a base address on. The code stands apart from the memory.
#[derive(Drop)]
pub struct Machine {
    code: Seq<u8>,
    base: u64,
    pub state: State,
    pub mem: MemBus,
    ended: bool,
    entry_rsp: u64,
    entry_return: Option<u64>,
}

/// What a step shows that does nothing.
const NO_EVENT: StepLeak = StepLeak {
    branch: None,
    addr: None,
    div: None,
};

impl Machine {
    /// A machine before its first step. The entry's stack pointer and return address are those of
    /// the state and the memory; where the slot is not valid no return ends the run.
    pub fn new(
        alloc: Global,
        code: &[u8],
        base: u64,
        state: State,
        mem: MemMap,
    ) -> Result<Machine, AllocError>
        ensures { IfOk result (λ machine. Starts machine code.now base state mem) }
    {
        let entry_rsp = state.reg(Reg::Rsp);
        let entry_return = mem.load(entry_rsp, Size::S64);
        Ok(Machine {
            code: Seq::from_slice(alloc, code)?,
            base,
            state,
            mem: MemBus { map: mem },
            ended: false,
            entry_rsp,
            entry_return,
        })
    }

    /// The instruction at rip.
    #[tactic(auto, unfolding(crate::specs::Steps::insn_at))]
    fn fetch(&self) -> Decoded
        ensures { result ≡ insn_at (code_of self.now) (base_of self.now) self.now.state.rip }
    {
        let rip = self.state.rip;
        if rip < self.base {
            return Decoded::Unknown;
        }
        let offset = rip - self.base;
        if offset >= self.code.len() as u64 {
            return Decoded::Unknown;
        }
        let code = self.code.as_slice();
        decode(&code[offset as usize..])
    }

    /// Whether the stack pointer is the entry's, and its slot still holds the entry's return
    /// address.
    fn is_at_entry(&self) -> bool
        ensures { result ≡ at_entry (config_of self.now) }
    {
        if self.state.reg(Reg::Rsp) != self.entry_rsp {
            return false;
        }
        match self.mem.load(self.entry_rsp, Size::S64) {
            None => false,
            Some(now) => match self.entry_return {
                None => false,
                Some(then) => now == then,
            },
        }
    }

    /// One step: the answer, and what it shows.
    #[tactic(auto, unfolding(crate::specs::Steps::step_of))]
    pub fn step(&mut self) -> (Step, StepLeak)
        ensures answer { result.0 ≡ (next_of self.old).answer }
        ensures leak { result.1 ≡ (next_of self.old).leak }
        ensures after { config_of self.new ≡ (next_of self.old).after }
        ensures code { SameCode self.old self.new }
    {
        if self.ended {
            return (Step::Ended, NO_EVENT);
        }
        let Decoded::Insn { insn, len } = self.fetch() else {
            return (Step::Fault(FaultKind::NoInsn), NO_EVENT);
        };
        let ends = matches!(insn, Insn::Ret) && self.is_at_entry();
        let next = self.state.rip.wrapping_add(len as u64);
        match effect(&insn, next, &mut self.state, &mut self.mem) {
            Err(fault) => (Step::Fault(fault), NO_EVENT),
            Ok(leak) => {
                self.ended = ends;
                let answer = if ends { Step::Ended } else { Step::Running };
                (answer, leak)
            }
        }
    }

    /// So many steps, or fewer where one ends or faults: the answer of the last.
    pub fn run(&mut self, count: u64) -> Step
        ensures answer { result
            ≡ last_answer (code_of self.old) (base_of self.old) (config_of self.old) count }
        ensures after { config_of self.new ≡ (steps_from self.old count).after }
        ensures code { SameCode self.old self.new }
    {
        if self.ended {
            return Step::Ended;
        }
        for _ in 0..count {
            let (answer, _) = self.step();
            match answer {
                Step::Running => {}
                _ => return answer,
            }
        }
        Step::Running
    }
}
