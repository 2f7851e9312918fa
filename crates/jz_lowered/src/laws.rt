//! What holds of functions over variables.

ghost use Rattle.jz_lowered.specs.Laws.{EntriesAreRelated, ResultsAreThere, BodiesAreSorted};
ghost use Rattle.jz_lowered.specs.Laws.{FunctionsAreReady};

/// Where a function begins, and its parameters alone have values, the states are related.
pub fn entries_are_related()
    ensures { EntriesAreRelated }
{}

/// A word that a function gives back is in the variable of the result.
pub fn results_are_there()
    ensures { ResultsAreThere }
{}

/// The words that operations write are variables for words, none of them leaves anything in the
/// stack pointer, and each accesses memory or a cell once at most.
pub fn bodies_are_sorted()
    ensures { BodiesAreSorted }
{}

/// A function whose parameters are in the registers of arguments, and its results in those of
/// results, is what machine code asks: its variables have kinds, its operations can be encoded, and
/// no result is in a register of the caller.
pub fn functions_are_ready()
    ensures { FunctionsAreReady }
{}
