//! The machine where `exec` starts a function.

ghost use Rattle.std.specs.Prelude.{◌≡◌, ◌+◌, ◌≤◌, IfOk, All, replicate};
ghost use Rattle.jz_inputs.specs.Held.{IsHeld};
ghost use Rattle.jz_preconditions.specs.Stating.{preconditions_of};
ghost use Rattle.jz_items.specs.Items.{words_of};
ghost use Rattle.jasminc_starts.specs.Memories.{most_frame, IsStartMemory, StandApart};
ghost use Rattle.jasminc_runs.specs.Starting.{IsLoaded};

use jasminc_steps::{CODE_BASE, RETURN_SLOT, start_state};
use jz_inputs::memory_of;
use jz_items::{Item, words_of};
use jz_leak::MemMap;
use jz_listing::Compiled;
use jz_preconditions::Pre;
use jz_tree::{Fun, Seq};
use std::alloc::{AllocError, Global};
use x64_machine::Machine;

/// What a function is run on.
#[derive(Clone, Copy)]
pub struct Input<'a> {
    pub function: &'a Fun,
    /// The argument words.
    pub words: &'a Seq<u64>,
    /// What was written on the command line: its bytes stand in memory.
    pub items: &'a Seq<Item>,
    /// The preconditions of the function, in the order of its text.
    pub pres: &'a Seq<Pre>,
}

/// So many bytes of 0.
fn zeros(alloc: Global, count: usize) -> Result<Vec<u8>, AllocError>
    ensures { IfOk result (λ bytes. bytes.items ≡ replicate count 0) }
{
    let mut bytes = Vec::new(alloc);
    bytes.resize(count, 0)?;
    Ok(bytes)
}

/// The bytes of the regions, and those of the frame and of the return slot, which are 0.
fn start_memory(alloc: Global, frame: u64, input: Input<'_>) -> Result<MemMap, AllocError>
    requires small { frame ≤ most_frame }
    requires stated { input.pres.now ≡ preconditions_of input.function.now }
    requires held { All (IsHeld input.function.now input.words.now input.items.now)
        input.pres.now }
    requires apart { StandApart input.items.now }
    ensures { IfOk result (IsStartMemory frame input.entry.function.now input.entry.words.now
        input.entry.items.now) }
{
    let mut memory = memory_of(alloc, input.function, input.words, input.items, input.pres)?;
    let bytes = zeros(alloc, frame as usize + 8)?;
    memory.add(RETURN_SLOT - frame, bytes.as_slice())?;
    Ok(memory)
}

/// The machine with the function's code, and the items' words in the argument registers.
pub fn loaded(alloc: Global, compiled: &Compiled, input: Input<'_>) -> Result<Machine, AllocError>
    requires small { compiled.now.frame ≤ most_frame }
    requires stated { input.pres.now ≡ preconditions_of input.function.now }
    requires held { All (IsHeld input.function.now input.words.now input.items.now)
        input.pres.now }
    requires apart { StandApart input.items.now }
    ensures { IfOk result (IsLoaded compiled.now input.entry.function.now input.entry.words.now
        input.entry.items.now) }
{
    let memory = start_memory(alloc, compiled.frame, input)?;
    let code = compiled.code.as_slice();
    let items = words_of(alloc, input.items)?;
    Machine::new(
        alloc,
        code,
        CODE_BASE,
        start_state(items.as_slice()),
        memory,
    )
}
