//! What runs keep.

ghost use Rattle.jz_run_laws.specs.Texts.{TextsDeclare};
ghost use Rattle.jz_run_laws.specs.Kept.{ValuesFit, KindsAreSorts, DeclarationsGiveKinds};
ghost use Rattle.jz_run_laws.specs.Kept.{OperationsKeep, MarksKeep, CountersBegin};
ghost use Rattle.jz_run_laws.specs.Kept.{CountersRestore, CallsEnter, CallsLeave, BodiesKeep};
ghost use Rattle.jz_run_laws.specs.Kept.{EntriesKeep, FunctionsKeep};

/// Where each variable holds a value of its kind, a word that an expression gives is below the
/// modulus of its size.
pub fn values_fit_their_sizes()
    ensures { ValuesFit }
{}

/// A store that holds kinds holds the sorts of those kinds, by which a text counts what it leaks.
pub fn kinds_are_sorts()
    ensures { KindsAreSorts }
{}

/// A variable of a text that carries what is declared of its name is of the kind that the
/// declarations give.
pub fn declarations_give_kinds()
    ensures { DeclarationsGiveKinds }
{}

/// Where the statements of a program's functions carry what is declared, the tree of each body
/// does, with the bodies that it calls.
pub fn texts_declare_bodies()
    ensures { TextsDeclare }
{}

/// Assignments, instructions and marks leave values of the declared kinds, where the left sides
/// carry what is declared of them.
pub fn operations_keep_kinds()
    ensures operations { OperationsKeep }
    ensures marks { MarksKeep }
{}

/// A counter of `for` is a whole number in its loop, and afterwards what it was before.
pub fn counters_keep_kinds()
    ensures begins { CountersBegin }
    ensures restores { CountersRestore }
{}

/// What a call begins with is of the callee's kinds, and what it leaves of the caller's.
pub fn calls_keep_kinds()
    ensures enters { CallsEnter }
    ensures leaves { CallsLeave }
{}

/// Where a body ends each variable holds nothing or a value of its kind, if it began so.
pub fn bodies_keep_kinds()
    ensures { BodiesKeep }
{}

/// On argument words of its parameters' sizes and a memory of bytes a function begins so, and the
/// words that it gives back fit their sizes.
pub fn functions_keep_kinds()
    ensures entries { EntriesKeep }
    ensures functions { FunctionsKeep }
{}
