//! Functions that are safe.

ghost use Rattle.jz_checked.specs.CheckedLaws.{CheckedIsNeverStuck, SafeIsNeverStuck};

/// An export function of a typed text that is safe is stuck on no input that meets its
/// preconditions, for each number of turns; nor is any of a text for which safety is answered with
/// a line for each.
pub fn safe_is_never_stuck()
    ensures safe { SafeIsNeverStuck }
    ensures checked { CheckedIsNeverStuck }
{}
