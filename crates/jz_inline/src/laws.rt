//! What is kept where calls become copies of what they call.

ghost use Rattle.std.specs.Prelude.{◌≡◌, true};
ghost use Rattle.jz_tree.specs.declared.program.Program.{Program};
ghost use Rattle.jz_tree.specs.declared.program.Fun.{Fun};
ghost use Rattle.jz_runs.specs.Trees.{done};
ghost use Rattle.jz_meaning.specs.Runs.{block};
ghost use Rattle.jz_pass.specs.Laws.{Carries};
ghost use Rattle.jz_type_rows.specs.Exports.{is_exported};
ghost use Rattle.jz_bodies.specs.Typed.{IsTypedFunction};
ghost use Rattle.jz_inline.specs.Functions.{alike, runs_of, body_runs, inlined_body, inlining_of};
ghost use Rattle.jz_inline.specs.Statements.{inlined_statements, no_callees};

/// Each run of an export function is one of the function whose calls are copies of what they call,
/// and the other way round: with as many true tests of `while` left both end, with the same results
/// and the same memory, or both are cut, with the leak that the change makes of the function's, or
/// both are stuck, at the same place for the same reason.
pub fn runs_stay()
    ensures { (p : Program) (f : Fun)
        → IsTypedFunction p f → is_exported f.kind ≡ true
        → Carries (alike p f) (runs_of p f) (body_runs (inlined_body p f) f) (inlining_of p f) }
{}

/// The statements of the function without calls are the body that these runs go through.
pub fn statements_are_the_body()
    ensures { (p : Program) (f : Fun)
        → inlined_body p f ≡ block no_callees (inlined_statements p f) done }
{}
