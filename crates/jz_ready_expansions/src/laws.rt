//! Expansions and lowering.

ghost use Rattle.jz_ready_expansions.specs.ReadyExpansions.{ExpansionsAreReady};

/// Each statement and each test of the expansion of an export function of a typed text is ready for
/// lowering, where its parts are expanded.
pub fn expansions_are_ready()
    ensures { ExpansionsAreReady }
{}
