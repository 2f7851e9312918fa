//! Classes through the passes.

ghost use Rattle.jz_kept_classes.specs.ClassLaws.{ValuesKeepClasses, ScalarsKeepClasses};

/// A register, memory, an inline integer, a flag and a masked count stay what they are with values in
/// place of inline parts, and with words in place of cells of register arrays.
pub fn classes_are_kept()
    ensures values { ValuesKeepClasses }
    ensures scalars { ScalarsKeepClasses }
{}
