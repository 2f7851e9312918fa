//! Export functions without an alarm.

ghost use Rattle.jz_safe_expansions.specs.SafeExpansions.{ExpansionsAreFine, SafeIsNeverStuck};
ghost use Rattle.jz_safe_expansions.specs.SafeExpansions.{SourceIsNeverStuck};

/// The expansion of an export function of a typed text within the limits is of forms of which a run
/// is stuck only where a condition is not met. Where it has no alarm no input that meets the
/// preconditions is stuck in it, as compiling asks, nor in the function of the text.
pub fn safe_is_never_stuck()
    ensures fine { ExpansionsAreFine }
    ensures compiled { SafeIsNeverStuck }
    ensures source { SourceIsNeverStuck }
{}
