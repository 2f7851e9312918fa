//! Runs of expansions.

ghost use Rattle.jz_expanded_runs.specs.RunLaws.{ExpansionsKeepRuns};

/// Each run of an export function of a typed text on an input is followed by one of its expansion, with
/// the same results and memory and the changed leak, and the one is stuck where the other is.
pub fn expansions_keep_runs()
    ensures { ExpansionsKeepRuns }
{}
