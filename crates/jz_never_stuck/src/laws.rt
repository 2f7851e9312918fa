//! What the absence of an alarm says of runs.

ghost use Rattle.jz_never_stuck.specs.SafetyLaws.{NoneHasSets, ExpandedIsNeverStuck};

/// Where an expanded function has no alarm, kept sets stand at its loops and one behind its body; and
/// on no input that meets the preconditions is a run of it stuck, however many turns are left.
pub fn safe_bodies_are_never_stuck()
    ensures sets { NoneHasSets }
    ensures expanded { ExpandedIsNeverStuck }
{}
