//! The functions of a typed text.

ghost use Rattle.jz_inline_laws.specs.InlineBodies.{InlineLaw};

/// What sets an inline variable sets it to an inline number, and stands in no `while` and in no `if`
/// that is not inline; with a condition, which is inline, the variable is set before it on each
/// path. Bounds of a `for` and arguments for inline parameters are inline numbers, results are not
/// inline, and each variable is inline by its declaration, by its name and for a run, or by none of
/// them.
pub fn inline_variables_are_typed()
    ensures { InlineLaw }
{}
