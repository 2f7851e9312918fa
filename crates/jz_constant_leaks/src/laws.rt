//! Functions whose expansions are constant time.

ghost use Rattle.jz_constant_leaks.specs.ConstantLeaks.{ConstantExpansionsLeakTheSame};
ghost use Rattle.jz_constant_leaks.specs.ConstantLeaks.{ConstantFunctionsLeakAlike};

/// Where the expansion of an export function of a typed text is constant time two inputs that are
/// equal at its public parameters leak the same in it, unless one of them is stuck; and of what
/// they leak in the function of the text the expansion leaves the same.
pub fn constant_functions_leak_the_same()
    ensures expansions { ConstantExpansionsLeakTheSame }
    ensures functions { ConstantFunctionsLeakAlike }
{}
