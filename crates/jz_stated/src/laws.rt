//! Annotations of typed programs.

ghost use Rattle.jz_stated.specs.StatedLaws.{ProgramsStateWell};

/// Of the annotations before an export function of a typed program none is refused.
pub fn typed_programs_state_well()
    ensures { ProgramsStateWell }
{}
