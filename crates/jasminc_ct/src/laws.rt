//! What holds of judgements of functions.

ghost use Rattle.jasminc_ct.specs.JudgementLaws.{OneJudgement};

/// A function that is constant time has no breach, and no function has two first breaches, whatever
/// expansions they are of: a text with a breach has no line that it is constant time, and the other
/// way round.
pub fn one_judgement()
    ensures { OneJudgement }
{}
