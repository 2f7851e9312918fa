//! What holds of facts along bodies and their runs.

ghost use Rattle.std.specs.Prelude.{◌≡◌, ℕ, Option, None};
ghost use Rattle.jz_leak.specs.RunLeaks.{Leak};
ghost use Rattle.jz_runs.specs.Trees.{Tree};
ghost use Rattle.jz_runs.specs.Rules.{Parts, Outcome, Goes};
ghost use Rattle.jz_flow.specs.Sets.{Facts, Below};
ghost use Rattle.jz_flow.specs.Flow.{Steps, After};
ghost use Rattle.jz_flow.specs.Alarms.{Asks, First, Meets, no_more};
ghost use Rattle.jz_flow.specs.Soundness.{Monotone, AllAre, Fine, Sound};

/// Facts, their rules and conditions, over the trees of a language.
pub trait Analysis {
    ghost Operation: { Type 0 };

    ghost Test: { Type 0 };

    ghost Counter: { Type 0 };

    ghost Call: { Type 0 };

    ghost State: { Type 0 };

    ghost Reason: { Type 0 };

    ghost Fact: { Type 0 };

    ghost Alarm: { Type 0 };

    ghost parts: { Parts Self.Operation Self.Test Self.Counter Self.Call Self.State Self.Reason };

    ghost steps: { Steps Self.Operation Self.Test Self.Fact };

    ghost asks: { Asks Self.Operation Self.Test Self.Fact Self.Alarm };

    /// Of these operations, marks and tests the rules are sound.
    ghost fine: { Self.Operation → Type 0 };

    ghost fine_test: { Self.Test → Type 0 };

    /// What a set of facts says of a state.
    ghost holds: { Facts Self.Fact → Self.State → Type 0 };

    ghost monotone: { Monotone Self.steps };

    ghost sound: { Sound Self.fine Self.fine_test Self.steps Self.asks Self.parts
        Self.holds };
}

/// Of more facts before a body more hold behind it, so that one set stands behind it, and it has one
/// first alarm or none. Where a set stands behind a body without an alarm, some kept sets meet each
/// of its conditions; and where the rules are sound for the body, from a state in which the facts at
/// entry hold no run is stuck where conditions are met, and at its end the facts behind the body
/// hold.
pub fn facts_hold_along_runs<A: Analysis>()
    ensures more { (b : Tree A.Operation A.Test A.Counter A.Call) (s t x y : Facts A.Fact)
        → Below s t → After A.steps b s x → After A.steps b t y → Below x y }
    ensures one { (b : Tree A.Operation A.Test A.Counter A.Call) (s x y : Facts A.Fact)
        → After A.steps b s x → After A.steps b s y → x ≡ y }
    ensures first { (b : Tree A.Operation A.Test A.Counter A.Call) (s : Facts A.Fact)
        (v w : Option A.Alarm) → First A.steps A.asks b s v no_more
        → First A.steps A.asks b s w no_more → v ≡ w }
    ensures calm { (b : Tree A.Operation A.Test A.Counter A.Call) (s x : Facts A.Fact)
        → After A.steps b s x → First A.steps A.asks b s None no_more → Meets A.steps A.asks b s x }
    ensures runs { (b : Tree A.Operation A.Test A.Counter A.Call) (n : ℕ) (m : A.State)
        (o : Outcome A.State A.Reason Leak) (s x : Facts A.Fact)
        → AllAre A.fine A.fine_test b → Goes A.parts b n m o → A.holds s m
        → Meets A.steps A.asks b s x → Fine (A.holds x) o }
{}
