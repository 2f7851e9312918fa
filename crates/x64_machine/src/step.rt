//! The answer of a step.

use x64_insn::FaultKind;

/// What a step answers.
#[derive(Clone, Copy)]
pub enum Step {
    Running,
    /// The return from the entry was made.
    Ended,
    Fault(FaultKind),
}
