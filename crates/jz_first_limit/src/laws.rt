//! What holds of first limits.

ghost use Rattle.jz_first_limit.specs.FirstLimits.{OneAnswer, SomeAnswer};

/// Each function is within the limits or has a first one, and not both or two.
pub fn one_first_limit()
    ensures one { OneAnswer }
    ensures some { SomeAnswer }
{}
