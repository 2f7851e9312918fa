//! Rows through the passes.

ghost use Rattle.jz_kept_patterns.specs.KeptPatterns.{CopiesKeepPatterns, ValuesKeepPatterns};
ghost use Rattle.jz_kept_patterns.specs.KeptPatterns.{ScalarsKeepPatterns};
ghost use Rattle.jz_kept_patterns.specs.KeptPatterns.{CopiesKeepPairs, ValuesKeepPairs};
ghost use Rattle.jz_kept_patterns.specs.KeptPatterns.{ScalarsKeepPairs};
ghost use Rattle.jz_kept_patterns.specs.KeptPatterns.{CopiesKeepInstructions};
ghost use Rattle.jz_kept_patterns.specs.KeptPatterns.{ValuesKeepInstructions};
ghost use Rattle.jz_kept_patterns.specs.KeptPatterns.{ScalarsKeepInstructions};

/// A statement of one left side that has a row has one as a copy, with values in place of its
/// inline parts, and with words in place of cells of register arrays.
pub fn patterns_are_kept()
    ensures copies { CopiesKeepPatterns }
    ensures values { ValuesKeepPatterns }
    ensures scalars { ScalarsKeepPatterns }
{}

/// So does one of two left sides.
pub fn pairs_are_kept()
    ensures copies { CopiesKeepPairs }
    ensures values { ValuesKeepPairs }
    ensures scalars { ScalarsKeepPairs }
{}

/// And an intrinsic.
pub fn instructions_are_kept()
    ensures copies { CopiesKeepInstructions }
    ensures values { ValuesKeepInstructions }
    ensures scalars { ScalarsKeepInstructions }
{}
