//! The numbers of two expansions of a function.

ghost use Rattle.jz_expanded_numbers.specs.ExpandedNumbers.{OneNumbers};

/// Two expansions of a function of a typed text have the same numbers in their bodies, in the same
/// order, so facts about them speak of the same constants.
pub fn numbers_of_expansions()
    ensures { OneNumbers }
{}
