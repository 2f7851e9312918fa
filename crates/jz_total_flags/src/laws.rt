//! Which typed statements have operations.

ghost use Rattle.jz_total_flags.specs.Ready.{AllAssignmentsHaveOperations, PairsHaveOperations};
ghost use Rattle.jz_total_flags.specs.Ready.{InstructionsHaveOperations};
ghost use Rattle.jz_total_flags.specs.Ready.{AllTestsHaveOperations, AllLoopTestsHaveOperations};
ghost use Rattle.jz_total_flags.specs.Bodies.{ReadyBodiesAreLowered};

/// A typed assignment to one left side or to two that the expansion leaves, that is within the
/// limits and has a row of the pattern table has operations.
pub fn assignments_have_operations()
    ensures single { AllAssignmentsHaveOperations }
    ensures pairs { PairsHaveOperations }
{}

/// So has an intrinsic.
pub fn instructions_have_operations()
    ensures { InstructionsHaveOperations }
{}

/// A test that is a comparison or a bool variable has operations, and so has `true` of a `while`.
pub fn tests_have_operations()
    ensures tests { AllTestsHaveOperations }
    ensures loop_tests { AllLoopTestsHaveOperations }
{}

/// A body of such statements has a body over variables.
pub fn bodies_are_lowered()
    ensures { ReadyBodiesAreLowered }
{}
