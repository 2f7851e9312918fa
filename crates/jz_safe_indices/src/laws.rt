//! What holds of functions without an alarm.

ghost use Rattle.jz_safe_indices.specs.Laws.{IndicesAreInside};

/// Where a function has no alarm each index that is a number is one of a cell of its array, also in
/// parts that no run reaches.
pub fn indices_are_inside()
    ensures { IndicesAreInside }
{}
