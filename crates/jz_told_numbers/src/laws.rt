//! Passes of the expansion, in two runs of one body.

ghost use Rattle.jz_told_numbers.specs.ToldLaws.{ScalarsTell, RoundsTell};

/// Where two runs of what a body becomes go side by side, with the same leak, so do two runs of the
/// body: the indices of cells that become scalars stand in the text, and what vanishes as loops
/// become their rounds leaks nothing.
pub fn passes_tell_all_numbers()
    ensures scalars { ScalarsTell }
    ensures rounds { RoundsTell }
{}
