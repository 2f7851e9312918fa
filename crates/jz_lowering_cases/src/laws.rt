//! What holds of the cases of functions over variables.

ghost use Rattle.jz_lowering_cases.specs.Laws.{LoweredCasesStay};

/// What operations over variables show of the frame are the places of stack variables that their
/// statement names, where each index that is a number is one of a cell; so too behind a change that
/// names the same variables.
pub fn lowered_cases_stay()
    ensures { LoweredCasesStay }
{}
