//! Languages, by the runs of their programs.

ghost use Rattle.std.specs.Prelude.{ℕ};
ghost use Rattle.jz_leak.specs.RunLeaks.{Leak};
ghost use Rattle.jz_runs.specs.Rules.{Outcome};
ghost use Rattle.jz_pass.specs.Cases.{Cases};

/// A language: its programs, and what their runs are. Of the types of inputs, of what ends give and
/// of why runs are stuck it counts alone what contracts see of their values.
pub trait Lang {
    type Program: Drop;
    /// What a run begins with.
    type Input;
    /// What the end of a run gives.
    type Given;
    /// Why a run is stuck.
    type Reason;

    /// The programs that passes take, and give.
    ghost valid: { Self.Program → Type 0 };

    /// The cases of a program's leaks, whatever run has them.
    ghost cases: { Self.Program → Cases };

    /// The runs of a program: from an input, with so many true tests of `while` left, to an
    /// outcome.
    ghost runs: { Self.Program → Self.Input → ℕ → Outcome Self.Given Self.Reason Leak → Type 0 };
}
