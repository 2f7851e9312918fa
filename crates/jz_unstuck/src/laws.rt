//! Expressions, tests and marks.

ghost use Rattle.jz_unstuck.specs.MetLaws.{WordsGo, TestsGo, TestsStand, MarksStand};

/// Where the facts of a set hold of the state in which a run of an expanded function stands, an
/// expression and a test are not stuck, for whatever reason, whose conditions the facts give.
pub fn what_is_given_is_not_stuck()
    ensures words { WordsGo }
    ensures tests { TestsGo }
{}

/// Where a run stands before a test or a mark it stands behind it, with the facts behind it.
pub fn facts_stand_behind_tests()
    ensures tests { TestsStand }
    ensures marks { MarksStand }
{}
