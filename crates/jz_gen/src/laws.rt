//! What holds of all programs from numbers.

ghost use Rattle.std.specs.Prelude.{◌≤◌, ℕ, length};
ghost use Rattle.jz_gen.specs.Programs.{program};

/// A program of at most 30,000 statements has at most 1 MiB.
pub fn programs_are_short()
    ensures { (seed size : ℕ) → size ≤ 30000 → length (program seed size) ≤ 1048576 }
{}
