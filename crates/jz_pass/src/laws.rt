//! What inlining and unrolling keep of runs, whatever the parts of the trees are.

ghost use Rattle.std.specs.Prelude.{ℕ};
ghost use Rattle.jz_runs.specs.Trees.{Tree, done};
ghost use Rattle.jz_runs.specs.Rules.{Parts, Goes};
ghost use Rattle.jz_change.specs.Changes as model;
ghost use Rattle.jz_pass.specs.Laws.{Carries, between_trees};
ghost use Rattle.jz_pass.specs.Cases.{CallsHaveItems, HasItems, IsBetween, cases_of};
ghost use Rattle.jz_pass.specs.Copying.{Copying, inlined, inlining};
ghost use Rattle.jz_pass.specs.Keeping.{IsOf, Keeps};
ghost use Rattle.jz_pass.specs.Unrolling.{Knowing, Unrolls, IsKnown, unrolled_to};

/// Trees whose calls become copies of what they call, and what each part of them keeps.
pub trait CopiedTrees {
    ghost Operation: { Type 0 };

    ghost Test: { Type 0 };

    ghost Counter: { Type 0 };

    ghost Call: { Type 0 };

    ghost State: { Type 0 };

    ghost Reason: { Type 0 };

    /// What is known of a copy.
    ghost Naming: { Type 0 };

    ghost parts: { Parts Self.Operation Self.Test Self.Counter Self.Call Self.State Self.Reason };

    ghost copying: { Copying Self.Operation Self.Test Self.Counter Self.Call Self.Naming };

    ghost keeps: { Keeps Self.parts Self.copying };

    ghost items: { CallsHaveItems Self.copying };
}

/// A body and its copy, in which each call is a copy too, have the same runs: at an end the
/// variables of the body stand in the state of all copies, and they are stuck alike.
pub fn inlining_keeps_runs<C: CopiedTrees>()
    ensures runs { (x : C.Naming) (c : ℕ) (b : Tree C.Operation C.Test C.Counter C.Call)
        → IsOf C.copying C.keeps.OpIn C.keeps.TestIn C.keeps.CounterIn C.keeps.CallIn x b
        → C.keeps.Below x c
        → Carries (between_trees (C.keeps.At x) (C.keeps.At x))
        (λ s n. Goes C.parts b n s)
        (λ t n. Goes C.parts (inlined C.copying x c b done) n t)
        (inlining C.copying x c b) }
    ensures cases { (x : C.Naming) (c : ℕ) (b : Tree C.Operation C.Test C.Counter C.Call)
        → IsBetween (cases_of b) (cases_of (inlined C.copying x c b done))
        (inlining C.copying x c b) }
{}

/// Trees of which each statement becomes others, by what is known of the parts.
pub trait UnrolledTrees {
    ghost Operation: { Type 0 };

    ghost Test: { Type 0 };

    ghost Counter: { Type 0 };

    ghost Call: { Type 0 };

    ghost State: { Type 0 };

    ghost Reason: { Type 0 };

    ghost NewOperation: { Type 0 };

    ghost NewTest: { Type 0 };

    ghost NewCounter: { Type 0 };

    ghost NewCall: { Type 0 };

    ghost NewState: { Type 0 };

    ghost NewReason: { Type 0 };

    /// What is known at a place of the text.
    ghost Known: { Type 0 };

    ghost parts: { Parts Self.Operation Self.Test Self.Counter Self.Call Self.State Self.Reason };

    ghost new_parts: { Parts Self.NewOperation Self.NewTest Self.NewCounter Self.NewCall
        Self.NewState Self.NewReason };

    ghost knowing: { Knowing Self.Operation Self.Test Self.Counter Self.Known Self.NewOperation
        Self.NewTest };

    ghost known: { IsKnown Self.parts Self.new_parts Self.knowing };

    ghost items: { HasItems Self.knowing };
}

/// A body has the runs of what its statements become.
pub fn unrolling_keeps_runs<U: UnrolledTrees>()
    ensures runs { (e e1 : U.Known) (b : Tree U.Operation U.Test U.Counter U.Call)
        (u : Tree U.NewOperation U.NewTest U.NewCounter U.NewCall) (k : model.Change)
        → Unrolls U.knowing b e done u e1 k
        → Carries (unrolled_to U.known e e1)
        (λ s n. Goes U.parts b n s) (λ t n. Goes U.new_parts u n t) k }
    ensures cases { (e e1 : U.Known) (b : Tree U.Operation U.Test U.Counter U.Call)
        (u : Tree U.NewOperation U.NewTest U.NewCounter U.NewCall) (k : model.Change)
        → Unrolls U.knowing b e done u e1 k → IsBetween (cases_of b) (cases_of u) k }
{}
