//! Rows and classes.

ghost use Rattle.jz_row_classes.specs.RowLaws.{AssignmentsHaveClasses, InstructionsHaveClasses};

/// An assignment that has a row has results and operands of the classes that the row asks, and so has
/// an instruction.
pub fn rows_have_classes()
    ensures assignments { AssignmentsHaveClasses }
    ensures instructions { InstructionsHaveClasses }
{}
