//! A typed program that comes of a text.

ghost use Rattle.jz_bodies.specs.Typed.{BodiesLaw};

/// The body of each of its functions reads and sets what the function has, with the bodies that it
/// calls; each call passes and gives back what parameters and results are declared to be, and no
/// array that the callee sets is passed twice.
pub fn bodies_are_typed()
    ensures { BodiesLaw }
{}
