//! Two results, and the results of instructions.

ghost use Rattle.jz_fine_results.specs.FineLaws.{PairsAreFine, InstructionsAreFine};

/// A typed assignment to two left sides with the classes of a row gives a carry or a borrow before a
/// word, or both words of a product, of operands of one size; a typed instruction with them takes
/// and gives what it has to, where its counts are within the limits.
pub fn results_are_fine()
    ensures pairs { PairsAreFine }
    ensures instructions { InstructionsAreFine }
{}
