//! What holds of the variables of functions without calls.

ghost use Rattle.jz_distinct.specs.Laws.{CopiesDiffer, PartsDiffer};

/// Of a function of a typed program that comes of a text, with a copy of what it calls in the place
/// of each call, no two variables have one name and one copy; nor have those that are left where
/// some are left out, as the inline ones are by the expansion.
pub fn copies_differ()
    ensures whole { CopiesDiffer }
    ensures parts { PartsDiffer }
{}
