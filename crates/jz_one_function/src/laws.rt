//! What is one of a function.

ghost use Rattle.jz_one_function.specs.Laws.{OneFunction};

/// By the homes of its variables a function has one function over variables: one entry, one body
/// and one list of results, which show one choice of the numbers that are leaked.
pub fn one_function()
    ensures { OneFunction }
{}
