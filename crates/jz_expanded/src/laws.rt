//! What the expansion leaves.

ghost use Rattle.jz_expanded.specs.Laws.{ExpressionsAreExpanded, LeftsAreExpanded};

/// An expression whose inline parts have values and whose other variables have homes is expanded
/// where the values stand in place of those parts and words in place of the cells of register
/// arrays, and so is a left side.
pub fn values_are_expanded()
    ensures expressions { ExpressionsAreExpanded }
    ensures lefts { LeftsAreExpanded }
{}
