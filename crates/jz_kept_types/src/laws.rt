//! Types behind the passes of an expansion.

ghost use Rattle.jz_kept_types.specs.KeptLaws.{ValuesKeepTypes, ScalarsKeepTypes, ValuesStayTyped, ScalarsStayTyped, UnrolledBodiesStayTyped, BodiesOfScalarsStayTyped};

/// An expression has the types that it had, whatever is known of inline variables.
pub fn expressions_keep_their_types()
    ensures values { ValuesKeepTypes }
    ensures scalars { ScalarsKeepTypes }
{}

/// So do the left sides and the value of an assignment, and its condition; with values where its
/// inline parts have some.
pub fn assignments_stay_typed()
    ensures values { ValuesStayTyped }
    ensures scalars { ScalarsStayTyped }
{}

/// So do all assignments and tests of a body.
pub fn bodies_stay_typed()
    ensures unrolled { UnrolledBodiesStayTyped }
    ensures scalars { BodiesOfScalarsStayTyped }
{}
