//! Functions that are judged to be constant time.

ghost use Rattle.jz_judged.specs.JudgedLaws.{JudgedLeakNothingSecret, CheckedLeakNothingSecret};

/// Where constant time of a text is answered with a line for each export function, two inputs of
/// one that are equal at its public parameters leak the same in its expansion, unless one of them
/// is stuck, and alike in the function of the text; and where safety is answered so too, no input
/// that meets the preconditions is stuck.
pub fn judged_functions_leak_alike()
    ensures judged { JudgedLeakNothingSecret }
    ensures checked { CheckedLeakNothingSecret }
{}
