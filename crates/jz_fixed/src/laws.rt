//! What holds of the statements that typing and expansion leave.

ghost use Rattle.jz_fixed.specs.FixedLaws.{FineIsFixed, FineFunctionsAreFixed};

/// Where each statement and each test of a body is of a form that typing and expansion leave, no
/// array of the frame is a scalar, and no part that may be left out leaks.
pub fn fine_functions_are_fixed()
    ensures bodies { FineIsFixed }
    ensures functions { FineFunctionsAreFixed }
{}
