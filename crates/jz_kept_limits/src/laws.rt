//! What stays within the limits.

ghost use Rattle.jz_kept_limits.specs.Laws.{ExpressionsStayWithin, OperationsStayWithin};
ghost use Rattle.jz_kept_limits.specs.Laws.{ConditionsStayWithin};

/// An expression whose inline parts have values passes each limit that it passed where the values
/// stand in place of those parts and words in place of the cells of register arrays.
pub fn expressions_stay_within()
    ensures { ExpressionsStayWithin }
{}

/// Where an operation passes no limit, it passes none with values in place of its inline parts and
/// words in place of the cells of register arrays; and a condition that stays likewise.
pub fn operations_stay_within()
    ensures operations { OperationsStayWithin }
    ensures conditions { ConditionsStayWithin }
{}
