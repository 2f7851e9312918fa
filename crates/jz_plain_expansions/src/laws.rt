//! The parts of an expansion.

ghost use Rattle.jz_plain_expansions.specs.PlainExpansions.{ExpansionsArePlain};

/// Of the expansion of a function of a typed text, where no limit is passed, each left side and each
/// expression is of words, flags and arrays of the frame, numbers and bools.
pub fn expansions_are_plain()
    ensures { ExpansionsArePlain }
{}
