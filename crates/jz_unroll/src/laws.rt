//! What holds where inline expressions are their values, and loops their rounds.

ghost use Rattle.jz_unroll.specs.ValueLaws.{InlineExact, ValuesStay, BodiesStay, CasesStay};

/// Where the values of inline variables are known, an inline expression with a value is not stuck,
/// leaks nothing and has it; and an expression whose inline parts are such values has the size, the
/// value and the leaked numbers that it had.
pub fn inline_expressions_are_values()
    ensures inline { InlineExact }
    ensures expressions { ValuesStay }
{}

/// A body whose loops are their rounds, without what set inline variables and with what constant
/// tests leave, has the runs of the body: it ends, is cut and is stuck alike.
pub fn unrolled_bodies_keep_runs()
    ensures bodies { BodiesStay }
    ensures cases { CasesStay }
{}
