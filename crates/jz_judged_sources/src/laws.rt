//! Equal leaks of the functions that `ct` answers with yes.

ghost use Rattle.jz_judged_sources.specs.JudgedSources.{JudgedSourcesLeakTheSame};

/// Where constant time is answered with a line for each export function of a text, two inputs of
/// one that are equal at its public parameters are both at the end with as many turns left, or both
/// cut, with the same leak, unless one of them is stuck.
pub fn judged_functions_leak_the_same()
    ensures { JudgedSourcesLeakTheSame }
{}
