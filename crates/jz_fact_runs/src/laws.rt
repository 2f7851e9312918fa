//! Facts, alarms and runs.

ghost use Rattle.jz_fact_runs.specs.RunLaws.{BodiesGo, SafeGoes};

/// Where a body has no alarm no run of it is stuck that begins where the facts before it hold; and
/// where an expanded function has none no run of the function is, however many turns are left.
pub fn safe_is_never_stuck()
    ensures bodies { BodiesGo }
    ensures functions { SafeGoes }
{}
