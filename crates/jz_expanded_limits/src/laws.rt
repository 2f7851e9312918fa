//! Limits of expansions.

ghost use Rattle.jz_expanded_limits.specs.ExpandedLimits.{ExpansionsAreWithin};
ghost use Rattle.jz_expanded_limits.specs.Sizes.{ExpansionsAreShort};

/// Each statement and each test of the expansion of an export function of a typed text is within
/// the limits, and no number of an inline variable is wanted for it. It has nine statements at most
/// for each that the limit of an expansion counts.
pub fn expansions_are_within()
    ensures within { ExpansionsAreWithin }
    ensures short { ExpansionsAreShort }
{}
