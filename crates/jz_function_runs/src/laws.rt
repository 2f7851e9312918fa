//! What holds of the runs of each function.

ghost use Rattle.jz_function_runs.specs.FunctionRuns.{OneRun, SomeRun};

/// With the same number of turns left, a function with a body in place of its own has one outcome
/// on each input.
pub fn bodies_have_one_run()
    ensures one { OneRun }
    ensures some { SomeRun }
{}
