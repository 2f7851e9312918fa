//! Instructions.

ghost use Rattle.jz_instructed.specs.InstructedLaws.{InstructionsGo, InstructionsStand};

/// Where a run stands, an instruction is not stuck whose conditions the facts give, and behind it
/// the run stands with the facts behind it.
pub fn instructions_are_not_stuck()
    ensures runs { InstructionsGo }
    ensures stands { InstructionsStand }
{}
