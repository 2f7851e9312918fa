//! Functions that are unrollable.

ghost use Rattle.jz_unrollable.specs.UnrollableLaws.{CopiesUnrollable};

/// A function whose body has values wherever a walk comes to it, through its calls, is unrollable
/// once its calls are copies of what they call.
pub fn copies_unrollable()
    ensures { CopiesUnrollable }
{}
