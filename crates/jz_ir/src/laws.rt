//! What follows from the order of places.

ghost use Rattle.std.specs.Prelude.{◌≡◌};
ghost use Rattle.x64_insn.specs.declared.types.Place.{Place};
ghost use Rattle.jz_ir.specs.Order.{number_of};

/// Two places have two numbers.
pub fn places_are_told_apart()
    ensures { (p q : Place) → number_of p ≡ number_of q → p ≡ q }
{}
