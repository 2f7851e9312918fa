//! Assignments of one value.

ghost use Rattle.jz_assigned.specs.AssignedLaws.{AssignmentsGo, AssignmentsStand};

/// Where a run stands, an assignment of one value to a variable, to a cell or to memory is not
/// stuck whose conditions the facts give, and behind it the run stands with the facts behind it.
pub fn assigned_values_are_not_stuck()
    ensures runs { AssignmentsGo }
    ensures stands { AssignmentsStand }
{}
