//! What holds of the events of bodies.

ghost use Rattle.std.specs.Prelude.{ℕ, List};
ghost use Rattle.x64_insn.specs.declared.types.Place.{Place};
ghost use Rattle.x64_insn.specs.declared.types.Reg.{Reg};
ghost use Rattle.jz_leak.specs.RunLeaks.{Leak};
ghost use Rattle.jz_runs.specs.Rules.{Outcome, Goes};
ghost use Rattle.jz_operations.specs.Values.{State};
ghost use Rattle.jz_operations.specs.Rows as rows;
ghost use Rattle.jz_placing.specs.Variables.{Body, variables};
ghost use Rattle.jz_events.specs.Laws.{OfLeak, LeakIsFor, ShowsTheSame};

/// The transformer of a body is for each leak of its runs, and makes of it the events that the
/// transformer of the instructions makes of theirs.
pub fn bodies_show_what_their_instructions_show()
    ensures fits { (frame : rows.Frame) (slots : ℕ → ℕ) (size at : ℕ) (saved : List Reg) (t : Body)
        (n : ℕ) (σ : State) (o : Outcome State (Unit {0}) Leak) → Goes (variables frame) t n σ o
        → OfLeak (LeakIsFor slots size at saved t) o }
    ensures events { (frame : rows.Frame) (slots : ℕ → ℕ) (size at : ℕ) (saved : List Reg)
        (t : Body) (places : ℕ → Place) (n : ℕ) (σ : State) (o : Outcome State (Unit {0}) Leak)
        → Goes (variables frame) t n σ o → OfLeak (ShowsTheSame slots size at saved t places) o }
{}
