//! First limits and counts.

ghost use Rattle.jz_limits.specs.LimitLaws.{WithinOrFirst, OneFirst, NoneWithin};
ghost use Rattle.jz_limits.specs.LimitLaws.{TurnsCount, EmptyLoops};

/// What is met is within the limits, or it has one first limit.
pub fn first_limits()
    ensures either { WithinOrFirst }
    ensures one { OneFirst }
    ensures none { NoneWithin }
{}

/// A `for` counts one and its body for each turn; one without statements as many as it has turns.
pub fn counts_of_loops()
    ensures turns { TurnsCount }
    ensures empty { EmptyLoops }
{}
