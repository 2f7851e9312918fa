//! What holds of two runs of one body.

ghost use Rattle.jz_equal_leaks.specs.Laws.{BodiesLeakTheSame, ConstantTimeLeaksTheSame};

/// Where some labels meet the rules of a body, two runs of it from states that agree on what is
/// public leak the same, unless one of them is stuck, and agree again at their ends; so where an
/// expanded function is constant time two inputs that are equal at its public parameters leak the
/// same.
pub fn constant_time_leaks_the_same()
    ensures bodies { BodiesLeakTheSame }
    ensures functions { ConstantTimeLeaksTheSame }
{}
