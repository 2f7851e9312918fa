//! Classes of statements through the passes.

ghost use Rattle.jz_kept_rows.specs.KeptRows.{ValuesStayClassed, ScalarsStayClassed, UnrolledBodiesAreClassed, BodiesOfScalarsAreClassed};

/// A typed statement with a row has results and operands of the classes that a row asks, with values
/// in place of its inline parts, and with words in place of cells of register arrays.
pub fn statements_stay_classed()
    ensures values { ValuesStayClassed }
    ensures scalars { ScalarsStayClassed }
{}

/// So has each statement and each test of a body.
pub fn bodies_stay_classed()
    ensures unrolled { UnrolledBodiesAreClassed }
    ensures scalars { BodiesOfScalarsAreClassed }
{}
