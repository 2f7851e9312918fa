//! What typing gives of parameters.

ghost use Rattle.jz_given_laws.specs.GivenLaws.{DifferLaw, FewLaw};

/// In a typed program that comes of a text the parameters of a function are different variables,
/// whatever its preconditions state of them, and an export function has six of them at the most.
pub fn parameters_of_typed_programs()
    ensures differ { DifferLaw }
    ensures few { FewLaw }
{}
