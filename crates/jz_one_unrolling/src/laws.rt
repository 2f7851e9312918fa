//! Two bodies that a body becomes.

ghost use Rattle.jz_one_unrolling.specs.OneUnrolling.{OneUnrolling};

/// Whatever is known at the heads of loops, two that a body becomes where the same inline variables
/// have the same numbers before it are one, with one change.
pub fn one_unrolling()
    ensures { OneUnrolling }
{}
