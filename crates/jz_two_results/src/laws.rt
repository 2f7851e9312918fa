//! Two results.

ghost use Rattle.jz_two_results.specs.TwoLaws.{TwoResultsGo, TwoResultsStand};

/// Where a run stands, an assignment of two results is not stuck whose conditions the facts give,
/// and behind it the run stands with the facts behind it.
pub fn two_results_are_not_stuck()
    ensures runs { TwoResultsGo }
    ensures stands { TwoResultsStand }
{}
