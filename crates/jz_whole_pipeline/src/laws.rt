//! What correct compilation says of runs.

ghost use Rattle.jz_whole_pipeline.specs.Headline.{CompilationsRunAsPrinted};

/// On each input that meets the printed preconditions the bytes of a correct compilation end where
/// the function of the text ends, with its results, its memory and the printed transformer of its
/// leak, and run on where that does.
pub fn compilations_run_as_printed()
    ensures { CompilationsRunAsPrinted }
{}
