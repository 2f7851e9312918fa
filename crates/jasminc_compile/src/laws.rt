//! What is made of a text.

ghost use Rattle.jasminc_compile.specs.MakingLaws.{MadeIsCorrect, MadeShowsNothingSecret};

/// Each function that is made of a text is correct for the export function of the text, with what
/// is listed of constant time, in the order of the text; and what is listed as constant time shows
/// nothing that is secret in its bytes.
pub fn what_is_made_is_correct()
    ensures correct { MadeIsCorrect }
    ensures secrets { MadeShowsNothingSecret }
{}
