//! Tables that lie over a set of facts.

ghost use Rattle.std.specs.Prelude.{◌≡◌, OnOk};
ghost use Rattle.jz_flow.specs.Sets.{common};
ghost use Rattle.jz_layers.specs.Layered.{IsOver, ClosesTo};
ghost use Rattle.jz_fact_sets.specs.declared.given.Given as code;
ghost use Rattle.jz_fact_sets.specs.Kept.{AreDifferent, facts_of};
ghost use Rattle.jz_block_facts.specs.Heads.{laid};

use jz_fact_sets::{FactSet, Table, meet};
use std::alloc::AllocError;

/// What a table knows becomes known.
pub fn lay<'a>(set: &mut FactSet<'a>, table: &Table<'a>) -> Result<(), AllocError>
    ensures below { OnOk result (set.new.below.items ≡ set.old.below.items) }
    ensures facts { OnOk result ((g : code.Given)
        → facts_of g set.new ≡ laid g table.now (facts_of g set.old)) }
{
    set.pour(table)?;
    Ok(())
}

/// Takes away the uppermost table, which is not the only one.
pub fn taken<'a>(set: &mut FactSet<'a>) -> Table<'a>
    requires { IsOver set.old }
    ensures table { result ≡ set.old.top }
    ensures below { ClosesTo set.old set.new }
    ensures facts { (g : code.Given)
        → facts_of g set.old ≡ laid g result (facts_of g set.new) }
{
    let table = set.close();
    table
}

/// Where the paths of two tables meet, the common facts hold.
pub fn meet_both<'a>(set: &mut FactSet<'a>, a: &Table<'a>, b: &Table<'a>) -> Result<(), AllocError>
    ensures below { OnOk result (set.new.below.items ≡ set.old.below.items) }
    ensures facts { OnOk result ((g : code.Given) → AreDifferent g.params → facts_of g set.new
        ≡ common (laid g a.now (facts_of g set.old)) (laid g b.now (facts_of g set.old))) }
{
    meet(set, a, b)?;
    Ok(())
}
