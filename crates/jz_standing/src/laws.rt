//! Values where a run stands.

ghost use Rattle.jz_standing.specs.ValueLaws.{WordsAreWords, AnswersAreBooleans};

/// Where a run of an expanded function stands, what typing gives a size comes out as a word of it or
/// as a number, and an answer comes out as a bool, if anything does.
pub fn values_are_of_their_kind()
    ensures words { WordsAreWords }
    ensures answers { AnswersAreBooleans }
{}
