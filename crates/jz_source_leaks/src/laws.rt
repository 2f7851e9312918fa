//! Equal leaks of the functions of a text.

ghost use Rattle.jz_source_leaks.specs.SourceLeaks.{ExpansionsLoseNothing};
ghost use Rattle.jz_source_leaks.specs.SourceLeaks.{ConstantSourcesLeakTheSame};

/// Two runs of an export function of a typed text, of whose leaks the expansion leaves the same,
/// have the same leak: what it leaves out stands in the text. So where the expansion is constant
/// time two inputs that are equal at the public parameters leak the same, unless one is stuck.
pub fn functions_leak_the_same()
    ensures lossless { ExpansionsLoseNothing }
    ensures constant { ConstantSourcesLeakTheSame }
{}
