//! Two expansions of a function.

ghost use Rattle.jz_one_expansion.specs.OneExpansion.{OneExpansion, NoForLeft};

/// Two expansions of a function have one body as runs see it, one head, and as many statements in
/// expanded order. There is neither a `for` nor a call
/// in it.
pub fn one_expansion()
    ensures one { OneExpansion }
    ensures plain { NoForLeft }
{}
