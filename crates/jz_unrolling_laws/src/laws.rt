//! An expression of which nothing passes a limit.

ghost use Rattle.jz_unrolling_laws.specs.AskedLaws.{AskedLaw, CopiedLaw};

/// Where none of its largest inline parts is told as one without a value, each of them has a value;
/// and so has each of its copy, whose variables have the numbers of those that they are copies of.
pub fn asked_expressions_have_values()
    ensures asked { AskedLaw }
    ensures copied { CopiedLaw }
{}
