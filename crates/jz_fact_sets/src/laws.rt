//! What changes of a set mean for its facts.

ghost use Rattle.std.specs.Prelude.{◌≡◌, ℕ, not, ◌&&◌, ◌||◌, ◌==◌};
ghost use Rattle.std.specs.Str.{bytes_eq};
ghost use Rattle.jz_flow.specs.Sets.{common};
ghost use Rattle.jz_meaning.specs.States.{Key};
ghost use Rattle.jz_layers.specs.Spots.{Spot};
ghost use Rattle.jz_facts.specs.Facts.{Fact, subject};
ghost use Rattle.jz_facts.specs.Holding.{renewed, same_cell};
ghost use Rattle.jz_fact_sets.specs.declared.given.Given.{Given};
ghost use Rattle.jz_fact_sets.specs.declared.knowledge.Knowledge.{Knowledge};
ghost use Rattle.jz_fact_sets.specs.Knowing.{meet};
ghost use Rattle.jz_fact_sets.specs.Kept.{AreDifferent, facts_by};
ghost use Rattle.jz_fact_sets.specs.Renewing.{own, renewed_at, with_cell, forgotten_at};

/// Where both of two are known, the common facts hold; behind the renewal of a variable its facts
/// are renewed; a cell more is a fact more; and of a name that is forgotten no fact holds.
pub fn changes_of_facts()
    ensures meeting { (g : Given) (x y new : Spot → Knowledge) → AreDifferent g.params
        → ((k : Spot) → new k ≡ meet (x k) (y k))
        → facts_by g new ≡ common (facts_by g x) (facts_by g y) }
    ensures renewal { (g : Given) (v : Key) (x : Knowledge) (know : Spot → Knowledge)
        → facts_by g (renewed_at v x know) ≡ renewed v (own g x) (facts_by g know) }
    ensures cell { (g : Given) (a : Key) (i : ℕ) (know : Spot → Knowledge) (f : Fact)
        → facts_by g (with_cell a i know) f ≡ (facts_by g know f || same_cell a i f) }
    ensures forgotten { (g : Given) (v : Key) (know : Spot → Knowledge) (f : Fact)
        → facts_by g (forgotten_at v know) f ≡ (facts_by g know f
        && not (bytes_eq v.name (subject f).name && (v.copy == (subject f).copy))) }
{}
