//! Types in expansions.

ghost use Rattle.jz_expanded_types.specs.ExpandedLaws.{ExpansionsAreTyped};

/// Each assignment and each test of the expansion of a function of a typed text is typed.
pub fn expansions_are_typed()
    ensures { ExpansionsAreTyped }
{}
