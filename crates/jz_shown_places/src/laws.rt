//! What holds of compiled functions of typed texts.

ghost use Rattle.jz_shown_places.specs.Laws.{CompiledTextsStay, CompiledTextsAreCompilations};

/// The transformer of a compiled export function of a typed text shows of the frame the places of
/// stack variables that the statements name, where each index of its expansion that is a number is
/// one of a cell; so this is correct compilation.
pub fn compiled_texts_are_compilations()
    ensures places { CompiledTextsStay }
    ensures compilation { CompiledTextsAreCompilations }
{}
