//! What is one of a statement.

ghost use Rattle.jz_one_row.specs.Laws.{OneAddress, OneIndex, OneArgument, OneDestination};
ghost use Rattle.jz_one_row.specs.Laws.{OneLowering, OneTest, OneLoopTest};

/// An expression is one sum, address and index, and one operand of each size; a left side is one
/// destination.
pub fn one_argument()
    ensures addresses { OneAddress }
    ensures indices { OneIndex }
    ensures operands { OneArgument }
    ensures destinations { OneDestination }
{}

/// A statement has one list of operations, each of which shows one list of its numbers, and a test
/// one comparison with its condition.
pub fn one_lowering()
    ensures statements { OneLowering }
    ensures tests { OneTest }
    ensures loop_tests { OneLoopTest }
{}
