//! Expansions, their homes and lowering.

ghost use Rattle.jz_expanded_homes.specs.ExpandedHomes.{ExpansionsHaveHomes, ExpansionsAreReady};

/// In the expansion of an export function of a typed text each variable has the home that the
/// declarations give it, and no inline part is left but numbers and bools; so each statement and
/// each test is ready for lowering.
pub fn expansions_have_homes()
    ensures homes { ExpansionsHaveHomes }
    ensures ready { ExpansionsAreReady }
{}
