//! A run of a typed program that is stuck for want of a value; and the sizes of instructions.

ghost use Rattle.jz_stuck_runs.specs.Lacking.{PartLaw, RunLaw};
ghost use Rattle.jz_stuck_runs.specs.Sizes.{SizeLaw};

/// A part of a statement that is stuck so evaluates an expression that has the reason in it: a
/// variable or a cell of it holds nothing at the place that is told, in the state in which it is
/// evaluated, or it computes with a number there. Else it is an instruction that shifts by a number
/// below 0, or the results of a call, of which a variable of the callee holds nothing. So of each
/// run: it comes to such a part, or it ends and a variable that it returns holds nothing.
pub fn stuck_runs_lack_a_value()
    ensures parts { PartLaw }
    ensures runs { RunLaw }
{}

/// Typing finds a size for each instruction that a typed program names, and it is done at that
/// size; SETcc gives a byte.
pub fn instructions_have_a_size()
    ensures { SizeLaw }
{}
