//! Facts and runs.

ghost use Rattle.jz_fact_laws.specs.FactLaws.{IntervalsHold, MultiplesHold, AssignmentsHold, TestsHold, ConditionalAssignmentsHold};

/// Where facts hold of a state, the value of an expression lies in its interval, and is a multiple
/// of what it is said to be.
pub fn values_are_as_facts_say()
    ensures intervals { IntervalsHold }
    ensures multiples { MultiplesHold }
{}

/// Where facts hold before an assignment to a variable, those behind it hold behind it, also under a
/// condition; and so it is with a test and its answer.
pub fn facts_hold_behind_statements()
    ensures assignments { AssignmentsHold }
    ensures conditional { ConditionalAssignmentsHold }
    ensures tests { TestsHold }
{}
