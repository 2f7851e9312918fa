//! Where a run was cut, for any language.

ghost use Rattle.std.specs.Prelude.{ℕ, ℤ, List};
ghost use Rattle.jz_leak.specs.RunLeaks.{Leak, Turns, Rounds};
ghost use Rattle.jz_leak.specs.Cuts.{IsWhole, AreWhole, RoundsWhole};
ghost use Rattle.jz_leak.specs.Cuts.{IsBroken, AreBroken, RoundsBroken};
ghost use Rattle.jz_runs.specs.Trees.{Tree};
ghost use Rattle.jz_runs.specs.Rules.{Parts, Outcome, Goes, Loops, Counts};
ghost use Rattle.jz_runs.specs.Laws.{HoldsCut};

/// A language, by what the parts of its trees do.
pub trait Language {
    ghost Operation: { Type 0 };

    ghost Test: { Type 0 };

    ghost Counter: { Type 0 };

    ghost Call: { Type 0 };

    ghost State: { Type 0 };

    ghost Reason: { Type 0 };

    ghost parts: { Parts Self.Operation Self.Test Self.Counter Self.Call Self.State Self.Reason };
}

/// A leak holds a cut exactly where its run was cut, at each depth: no part of the leak of an end
/// is cut, and of a cut the last part is, with all before it whole. So of bodies, of the turns of a
/// `while` and of the rounds of a `for`.
pub fn leaks_hold_the_cuts_of_runs<L: Language>()
    ensures bodies { (b : Tree L.Operation L.Test L.Counter L.Call) (n : ℕ) (s : L.State)
        (o : Outcome L.State L.Reason Leak) → Goes L.parts b n s o → HoldsCut IsWhole IsBroken o }
    ensures turns { (p b : Tree L.Operation L.Test L.Counter L.Call) (c : L.Test) (n : ℕ)
        (s : L.State) (o : Outcome L.State L.Reason Turns)
        → Loops L.parts p c b n s o → HoldsCut AreWhole AreBroken o }
    ensures rounds { (b : Tree L.Operation L.Test L.Counter L.Call) (f : L.Counter) (is : List ℤ)
        (n : ℕ) (s : L.State) (o : Outcome L.State L.Reason Rounds)
        → Counts L.parts f b is n s o → HoldsCut RoundsWhole RoundsBroken o }
{}
