//! What operands and destinations of statements are over variables.

ghost use Rattle.jz_homes.specs.Laws.{OperandsAreRead, DestinationsAreWritten};

/// In related states an operation reads of an operand the word that the source evaluates, and shows
/// of the numbers that this leaks those that the operand says. No operand is without a value where
/// the source has one.
pub fn operands_are_read()
    ensures { OperandsAreRead }
{}

/// A word that the source writes is put where the destination says, and the states are related
/// afterwards.
pub fn destinations_are_written()
    ensures { DestinationsAreWritten }
{}
