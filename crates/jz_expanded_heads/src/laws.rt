//! Heads of expansions.

ghost use Rattle.jz_expanded_heads.specs.HeadLaws.{HeadsAreFine};

/// The expansion of an export function of a typed text has the function's parameters and notes; its
/// parameters are words with different names, its results are words, and none of its variables is an
/// inline integer.
pub fn heads_are_fine()
    ensures { HeadsAreFine }
{}
