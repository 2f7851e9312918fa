//! Operands and results of what the expansion leaves.

ghost use Rattle.jz_plain_operands.specs.PlainLaws.{WordsAreOperands, FlagsAreOperands};
ghost use Rattle.jz_plain_operands.specs.PlainLaws.{SumsAreOperands, CountsAreOperands};
ghost use Rattle.jz_plain_operands.specs.PlainLaws.{TestsAreAnswers};
ghost use Rattle.jz_plain_operands.specs.PlainLaws.{WordsAreTaken, PinnedAreTaken, FlagsAreTaken};

/// What the tables take for a register, memory, a number, a flag, a sum or a test is one where it has
/// the type of its place.
pub fn operands_are_plain()
    ensures words { WordsAreOperands }
    ensures flags { FlagsAreOperands }
    ensures sums { SumsAreOperands }
    ensures counts { CountsAreOperands }
    ensures tests { TestsAreAnswers }
{}

/// And so are left sides.
pub fn results_are_plain()
    ensures words { WordsAreTaken }
    ensures pinned { PinnedAreTaken }
    ensures flags { FlagsAreTaken }
{}
