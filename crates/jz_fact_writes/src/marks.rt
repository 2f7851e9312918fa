//! Sets of facts behind marks.

ghost use Rattle.std.specs.Prelude.{◌≡◌, OnOk};
ghost use Rattle.jz_meaning.specs.Statements.{unset};
ghost use Rattle.jz_facts.specs.Holding as holding;
ghost use Rattle.jz_fact_sets.specs.declared.given.Given as code;
ghost use Rattle.jz_fact_sets.specs.Kept.{facts_of};
ghost use Rattle.jz_fact_writes.specs.Marking.{unmarked};
ghost use Rattle.jz_fact_writes.specs.Marking as marking;

use jz_fact_sets::{FactSet, Knowledge, forget_all, renew};
use jz_meaning::{Kind, kind_of};
use jz_tree::{Seq, Var};
use std::alloc::AllocError;

fn is_array(kind: Kind) -> bool
    ensures { result ≡ marking.is_array kind }
{
    match kind {
        Kind::Array(_, _) => true,
        _ => false,
    }
}

/// Nothing is known of a variable, nor of the scalars and the cells of an array.
fn forget<'a>(set: &mut FactSet<'a>, var: &'a Var) -> Result<(), AllocError>
    ensures below { OnOk result (set.new.below.items ≡ set.old.below.items) }
    ensures facts { OnOk result ((g : code.Given) → facts_of g set.new
        ≡ unmarked var.now (facts_of g set.old)) }
{
    if is_array(kind_of(var)) {
        forget_all(set, var)?;
        return Ok(());
    }
    renew(set, var, Knowledge::nothing())?;
    Ok(())
}

/// Behind a mark no fact is left on its variables.
pub fn after_mark<'a>(set: &mut FactSet<'a>, vars: &'a Seq<Var>) -> Result<(), AllocError>
    ensures below { OnOk result (set.new.below.items ≡ set.old.below.items) }
    ensures facts { OnOk result ((g : code.Given) → facts_of g set.new
        ≡ holding.quieted (unset vars.now) (facts_of g set.old)) }
{
    for var in vars.as_slice() {
        forget(set, var)?;
    }
    Ok(())
}
