//! Which typed statements have operations.

ghost use Rattle.jz_total_rows.specs.Laws.{AssignmentsHaveOperations};
ghost use Rattle.jz_total_rows.specs.Laws.{TestsHaveOperations, LoopTestsHaveOperations};
ghost use Rattle.jz_total_rows.specs.Variables.{VariablesHaveHomes};

/// A variable of a function has the home that its declaration gives it, and a cell of a register
/// array that is a variable of its own that of the cell.
pub fn variables_have_homes()
    ensures { VariablesHaveHomes }
{}

/// A typed assignment to one left side that the expansion leaves, that is within the limits and
/// whose row is no quotient's has operations. Its condition, where there is one, is a comparison.
pub fn assignments_have_operations()
    ensures { AssignmentsHaveOperations }
{}

/// A test that is a comparison has operations, and so has `true` of a `while`.
pub fn tests_have_operations()
    ensures tests { TestsHaveOperations }
    ensures loop_tests { LoopTestsHaveOperations }
{}
