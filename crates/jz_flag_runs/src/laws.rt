//! What the operations of these statements do.

ghost use Rattle.jz_flag_runs.specs.Laws.{FlagRowsKeepRuns, FlagTestsKeepRuns, FlagRowsHaveItems};

/// Where such a statement isn't stuck, and there are places for all that its operations need, these
/// go through and end in a related state: the words, and the flags that are set; and of the leaked
/// numbers they show those of their items, of a division its high word, its low word and the
/// divisor. A test of a bool variable answers as that of the source.
pub fn flag_rows_keep_runs()
    ensures statements { FlagRowsKeepRuns }
    ensures tests { FlagTestsKeepRuns }
    ensures items { FlagRowsHaveItems }
{}
