//! Which compiled functions can be listed.

ghost use Rattle.jz_listable.specs.Made.{CorrectIsListable};

/// Correct compilation of an export function of a typed text whose names are identifiers can be
/// listed, where its numbers have the sizes of their types.
pub fn correct_functions_can_be_listed()
    ensures { CorrectIsListable }
{}
