//! Whole bodies.

ghost use Rattle.jz_fine_bodies.specs.FineBodies.{BodiesAreFine};

/// Where each assignment, each instruction and each test of a body is expanded and typed, has the
/// classes of a row and passes no limit, each is of a form of which a run is stuck only where a
/// condition is not met.
pub fn bodies_are_fine()
    ensures { BodiesAreFine }
{}
