//! Where typing finds nothing wrong, the judgement holds, and nowhere else.

ghost use Rattle.jz_judgement.specs.Agreement.{ExpressionLaw, ValueLaw, CallLaw, IntrinsicLaw, StatementLaw, ProgramLaw};

/// An expression in its place.
pub fn expressions_are_judged()
    ensures { ExpressionLaw }
{}

/// A value and its left sides.
pub fn values_are_judged()
    ensures { ValueLaw }
{}

/// The arguments and results of a call.
pub fn calls_are_judged()
    ensures { CallLaw }
{}

/// The arguments and results of an intrinsic.
pub fn intrinsics_are_judged()
    ensures { IntrinsicLaw }
{}

/// A statement, without those that stand in it.
pub fn statements_are_judged()
    ensures { StatementLaw }
{}

/// A program whose variables have their declarations.
pub fn programs_are_judged()
    ensures { ProgramLaw }
{}
