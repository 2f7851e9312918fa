//! Rows of expansions.

ghost use Rattle.jz_expanded_patterns.specs.ExpandedPatterns.{ExpansionsHavePatterns};

/// Each assignment and each intrinsic in the expansion of a function of a typed text has a row of
/// the pattern table: that `select` gives one is a law of typing.
pub fn expansions_have_patterns()
    ensures { ExpansionsHavePatterns }
{}
