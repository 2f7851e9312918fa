//! What holds of bodies whose register arrays are scalars.

ghost use Rattle.jz_arrays.specs.ScalarLaws.{ExpressionsStay, BodiesStay};

/// An expression keeps its value, and a body its runs, where cells of register arrays are scalars:
/// it ends in the same state, is cut or is stuck alike, and of what it leaks the indices of those
/// cells alone are left out.
pub fn scalars_keep_runs()
    ensures expressions { ExpressionsStay }
    ensures bodies { BodiesStay }
{}
