//! What operations of statements do.

ghost use Rattle.jz_row_operations.specs.Laws.{RowsKeepRuns, TestsKeepRuns, RowsHaveItems};

/// Where a statement isn't stuck its operations go through and end in a related state, and of the
/// leaked numbers they show those of their items; a test answers as that of the source. No
/// operation is without a step, no flag is read that isn't set.
pub fn rows_keep_runs()
    ensures statements { RowsKeepRuns }
    ensures tests { TestsKeepRuns }
    ensures items { RowsHaveItems }
{}
