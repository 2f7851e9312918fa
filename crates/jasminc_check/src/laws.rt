//! What holds of judgements of functions.

ghost use Rattle.jasminc_check.specs.JudgementLaws.{OneJudgement};

/// A function of a typed text has one count and one first alarm, or none: a text with an alarm has
/// no line that it is safe, and the other way round.
pub fn one_judgement()
    ensures { OneJudgement }
{}
