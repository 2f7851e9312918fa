//! What bodies over variables do.

ghost use Rattle.jz_every_row.specs.Bodies.{BodiesCarry, BodiesHaveCases};

/// Beside each run of a body that isn't stuck its operations over variables run, where there are
/// places for all that they need, for every number of turns: they end with as many turns left, in a
/// related state, or are cut, and of the leaked numbers they show those that the change says. No
/// operation is without a step, no flag is read that isn't set. What the change makes has an item
/// for each operation and each test.
pub fn lowering_keeps_runs()
    ensures runs { BodiesCarry }
    ensures cases { BodiesHaveCases }
{}
