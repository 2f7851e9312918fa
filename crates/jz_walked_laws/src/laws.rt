//! Functions of typed texts that are within the limits.

ghost use Rattle.jz_walked_laws.specs.WalkedLaws.{NamedLaw, CalledLaw, ResultsLaw};

/// In the body of each function, and in those that it calls, variables are of no copy, and inline by
/// their names where they are declared so. Where an export function is within the limits, all that
/// unrolling asks for has a value, where the walk of the limits comes to it. No result is inline.
pub fn walked_bodies_have_values()
    ensures named { NamedLaw }
    ensures called { CalledLaw }
    ensures results { ResultsLaw }
{}
