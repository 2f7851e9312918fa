//! Rows and the forms of facts.

ghost use Rattle.jz_fine_rows.specs.Prepared.{AssignmentsAreFine};

/// An assignment of one value that is typed and expanded, has the classes of a row and passes no limit
/// gives a word to a word, a cell or memory, and its operands have the size that is wanted; its
/// condition, where there is one, is a flag, a comparison of words or the opposite of one.
pub fn assignments_are_fine()
    ensures { AssignmentsAreFine }
{}
