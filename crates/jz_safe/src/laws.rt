//! What is found to be safe.

ghost use Rattle.jz_safe.specs.SafeRuns.{ExpandedRunsOn, SafeRunsOn, SourceRunsOn};

/// What is found to be safe is stuck on no input that meets the preconditions, however many turns
/// are left and for whatever reason: neither the expansion nor the function of the text.
pub fn what_is_safe_is_never_stuck()
    ensures expanded { ExpandedRunsOn }
    ensures compiled { SafeRunsOn }
    ensures source { SourceRunsOn }
{}
