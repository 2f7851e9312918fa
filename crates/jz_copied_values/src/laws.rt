//! A body whose calls are copies of what they call.

ghost use Rattle.jz_copied_values.specs.CopiedLaws.{CopiesFit};

/// Where each part of a body, and of the bodies that it calls, has values when a walk comes to it,
/// the body without calls can be unrolled.
pub fn copies_fit()
    ensures { CopiesFit }
{}
