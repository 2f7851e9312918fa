//! These rows beside the others.

ghost use Rattle.jz_flag_rows.specs.Laws.{StatementsAreApart, TestsAreApart};

/// No statement has operations both by these rows and by those of jz_row_operations, and no test.
pub fn rows_are_apart()
    ensures statements { StatementsAreApart }
    ensures tests { TestsAreApart }
{}
