//! What is drawn of arms, of loops and of whole bodies.

ghost use Rattle.jz_drawn_bodies.specs.Bodies.{ArmsLaw, LoopLaw, BreachLaw};

/// Where arms meet, the scalars that one of them sets have new labels, which come of both.
pub fn arms_are_drawn()
    ensures { ArmsLaw }
{}

/// The scalars that a loop sets have new labels at its head, and what they have at the end of a turn
/// comes back to these.
pub fn loops_are_drawn()
    ensures { LoopLaw }
{}

/// The first label that is asked to be public and is none of those with the fewest secrets is the
/// first breach.
pub fn first_asked_is_first_breach()
    ensures { BreachLaw }
{}
