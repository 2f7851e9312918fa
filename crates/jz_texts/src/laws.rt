//! What texts give, and what typing adds.

ghost use Rattle.jz_texts.specs.Texts.{ReadLaw, ResolvedLaw};
ghost use Rattle.jz_texts.specs.Declared.{DeclarationsLaw, WellTypedLaw};

/// A program that is read from a text has plain variables, each that is declared with its
/// declaration, and those of a function stand in the order of the text.
pub fn texts_are_read()
    ensures { ReadLaw }
{}

/// It has them still where declarations and numbers are filled in.
pub fn texts_stay_resolved()
    ensures { ResolvedLaw }
{}

/// In a typed program that comes of a text the variables of a function have different names, each
/// variable that is used is one of them and carries its declaration, and each array has a number as
/// its length.
pub fn names_of_typed_programs()
    ensures { DeclarationsLaw }
{}

/// A typed program is well typed.
pub fn typed_programs_are_well_typed()
    ensures { WellTypedLaw }
{}
