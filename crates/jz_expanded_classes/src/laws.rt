//! Classes of expansions.

ghost use Rattle.jz_expanded_classes.specs.ClassedLaws.{ExpansionsAreClassed};

/// The results and operands of each statement, and each test, of the expansion of a function of a typed
/// text have the classes that a row asks.
pub fn expansions_are_classed()
    ensures { ExpansionsAreClassed }
{}
