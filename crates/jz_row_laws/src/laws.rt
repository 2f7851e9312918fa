//! An expression that an instruction can have leaks as many numbers as its text says.

ghost use Rattle.jz_row_laws.specs.Numbers.{SelectedLaw, CopiedLaw};

/// In a statement for which a row is selected, and in a copy of an argument or result, each
/// expression leaks as many numbers as its text says, or it is an inline condition.
pub fn rows_fix_numbers()
    ensures statements { SelectedLaw }
    ensures copies { CopiedLaw }
{}
