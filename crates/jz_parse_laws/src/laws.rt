//! What texts give.

ghost use Rattle.jz_parse_laws.specs.Names.{NamesLaw, ResolvedNamesLaw};
ghost use Rattle.jz_parse_laws.specs.Setting.{SettingLaw};

/// Each name of a program that is read from a text is an identifier.
pub fn names_are_identifiers()
    ensures { NamesLaw }
{}

/// It is one still where declarations and numbers are filled in.
pub fn names_stay_identifiers()
    ensures { ResolvedNamesLaw }
{}

/// Each assignment of a program that is read has a left side, or is a call that stands alone.
pub fn assignments_set_or_call()
    ensures { SettingLaw }
{}
