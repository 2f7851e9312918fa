//! Expansions and operations.

ghost use Rattle.jz_lowered_expansions.specs.LoweredExpansions.{ExpansionsHaveCode};
ghost use Rattle.jz_lowered_expansions.specs.LoweredExpansions.{OnlyLargeAreRefused};

/// In the expansion of an export function of a typed text each statement and each test has
/// operations: its homes, its rows, its types and its limits are those that lowering asks. Lowering
/// refuses it for the number of its variables alone: where there are fewer than 2^32 of them each has
/// a home, its parameters and results have registers, and it is not too long.
pub fn expansions_have_code()
    ensures code { ExpansionsHaveCode }
    ensures size { OnlyLargeAreRefused }
{}
