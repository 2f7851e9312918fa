//! What holds of leaks, whatever the run.

ghost use Rattle.std.specs.Prelude.{◌≡◌, true, false};
ghost use Rattle.jz_leak.specs.RunLeaks.{Leak, Turns, Rounds};
ghost use Rattle.jz_leak.specs.Cuts.{IsWhole, AreWhole, RoundsWhole, IsBroken, AreBroken, RoundsBroken};
ghost use Rattle.jz_leak.specs.Applying.{is_cut, is_cut_in_turns, is_cut_in_rounds};

/// A leak without a cut counts as one that was not cut.
pub fn whole_leaks_are_not_cut()
    ensures body { (l : Leak) → IsWhole l → is_cut l ≡ false }
    ensures turns { (ts : Turns) → AreWhole ts → is_cut_in_turns ts ≡ false }
    ensures rounds { (rs : Rounds) → RoundsWhole rs → is_cut_in_rounds rs ≡ false }
{}

/// A leak that ends with its cut counts as one that was cut.
pub fn broken_leaks_are_cut()
    ensures body { (l : Leak) → IsBroken l → is_cut l ≡ true }
    ensures turns { (ts : Turns) → AreBroken ts → is_cut_in_turns ts ≡ true }
    ensures rounds { (rs : Rounds) → RoundsBroken rs → is_cut_in_rounds rs ≡ true }
{}
