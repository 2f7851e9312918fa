//! What holds of the rules of facts.

ghost use Rattle.std.specs.Prelude.{◌≡◌, ◌≤◌, ℕ, true};
ghost use Rattle.x64_insn.specs.Size.{Size};
ghost use Rattle.jz_flow.specs.Sets.{Below};
ghost use Rattle.jz_flow.specs.Soundness.{Monotone};
ghost use Rattle.jz_terms.specs.Terms.{Term};
ghost use Rattle.jz_facts.specs.Facts.{Facts, Given};
ghost use Rattle.jz_facts.specs.Intervals.{interval, multiple};
ghost use Rattle.jz_facts.specs.Along.{fact_steps};

/// Of more facts before an operation, a mark or a test there are more behind it, intervals are
/// narrower, and what was a multiple is one. So one greatest set stands at the head of a loop.
pub fn more_facts_give_more()
    ensures steps { (g : Given) → Monotone (fact_steps g) }
    ensures low { (g : Given) (s t : Facts) → Below s t → (z : Size) (e : Term)
        → (interval g s z e).lo ≤ (interval g t z e).lo }
    ensures high { (g : Given) (s t : Facts) → Below s t → (z : Size) (e : Term)
        → (interval g t z e).hi ≤ (interval g s z e).hi }
    ensures multiples { (g : Given) (s t : Facts) → Below s t → (e : Term) (m : ℕ)
        → multiple g s e m ≡ true → multiple g t e m ≡ true }
{}
