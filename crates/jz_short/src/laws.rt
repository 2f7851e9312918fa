//! What holds of the length of bodies over variables.

ghost use Rattle.jz_short.specs.Lengths.{BodiesAreThreeTimesAsLong};

/// A statement has three operations at most, as a division has, and a test one comparison beside its
/// branch.
pub fn bodies_are_three_times_as_long()
    ensures { BodiesAreThreeTimesAsLong }
{}
