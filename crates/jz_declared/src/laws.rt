//! What holds of the homes of declared variables.

ghost use Rattle.jz_declared.specs.Laws.{HomesAreDeclared};

/// The n-th variable that the declarations of a function stand for has the number n, each stack
/// variable its own, in the order of the text, and nothing else has a home.
pub fn homes_are_declared()
    ensures { HomesAreDeclared }
{}
