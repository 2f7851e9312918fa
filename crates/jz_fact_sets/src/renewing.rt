//! What a write changes.

ghost use Rattle.std.specs.Prelude.{◌≡◌, true, false, OnOk};
ghost use Rattle.jz_layers.specs.Spots.{Spot, same_spot, spot_of, variable_key, variable_spot, is_noted};
ghost use Rattle.jz_fact_sets.specs.Kept.{known_at};
ghost use Rattle.jz_fact_sets.specs.Renewing as renewing;

use crate::knowledge::Knowledge;
use crate::set::FactSet;
use jz_layers::Named;
use jz_tree::Var;
use std::alloc::AllocError;

/// Whether something is of a variable, or of any variable of its name and copy.
fn is_meant<'a>(named: Named<'a>, all: bool, other: Named<'a>) -> bool
    ensures { result ≡ renewing.is_meant (spot_of named.entry) all (spot_of other.entry) }
{
    *named.name == *other.name && (named.copy == other.copy && (all || named.cell == other.cell))
}

/// Whether it is meant and is a cell.
fn is_meant_cell<'a>(named: Named<'a>, all: bool, other: Named<'a>) -> bool
    ensures { result ≡ renewing.is_meant_cell (spot_of named.entry) all
        (spot_of other.entry) }
{
    let plain = other.cell.is_none() && other.index.is_none();
    is_meant(named, all, other) && !plain
}

/// Where it is meant, nothing is known of a cell.
fn forget_if<'a>(set: &mut FactSet<'a>, yes: bool, named: Named<'a>) -> Result<(), AllocError>
    requires { is_noted set.old.noted (spot_of named) ≡ true }
    ensures noted { OnOk result (set.new.noted ≡ set.old.noted) }
    ensures below { OnOk result (set.new.below.items ≡ set.old.below.items) }
    ensures known { OnOk result (known_at set.new
        ≡ renewing.forgotten_if yes (spot_of named.entry) (known_at set.old)) }
{
    if yes {
        set.put_noted(named, Knowledge::nothing())?;
    }
    Ok(())
}

/// Nothing is known of the cells that are meant.
fn forget_cells<'a>(set: &mut FactSet<'a>, named: Named<'a>, all: bool) -> Result<(), AllocError>
    ensures below { OnOk result (set.new.below.items ≡ set.old.below.items) }
    ensures known { OnOk result (known_at set.new
        ≡ renewing.without_cells (spot_of named.entry) all (known_at set.old)) }
{
    let count = set.noted();
    let mut i = 0;
    while i < count {
        match set.noted_at(i) {
            None => unreachable!(),
            Some(other) => forget_if(set, is_meant_cell(named, all, other), other)?,
        }
        i += 1;
    }
    Ok(())
}

/// Nothing is known of the cells of an array, if it is one.
fn forget_own<'a>(set: &mut FactSet<'a>, var: &'a Var) -> Result<(), AllocError>
    ensures below { OnOk result (set.new.below.items ≡ set.old.below.items) }
    ensures known { let n = variable_spot var.now in
        OnOk result ((k : Spot) → same_spot n k ≡ false
        → known_at set.new k ≡ renewing.without_cells n false (known_at set.old) k) }
{
    let named = Named::of(var);
    if !set.has_cells(named) {
        return Ok(());
    }
    forget_cells(set, named, false)?;
    Ok(())
}

/// This becomes known of a variable; of the cells of an array of its name nothing is known.
pub fn renew<'a>(set: &mut FactSet<'a>, var: &'a Var, known: Knowledge) -> Result<(), AllocError>
    ensures below { OnOk result (set.new.below.items ≡ set.old.below.items) }
    ensures known { OnOk result (known_at set.new
        ≡ renewing.renewed_at (variable_key var.now) known (known_at set.old)) }
{
    forget_own(set, var)?;
    set.put(Named::of(var), known)?;
    Ok(())
}

/// What a variable's name and copy stand for without a cell.
fn whole_of<'a>(var: &'a Var) -> Named<'a>
    ensures { spot_of result ≡ renewing.whole_spot (variable_key var.now) }
{
    Named {
        name: &var.name,
        copy: var.copy,
        cell: None,
        index: None,
    }
}

/// Nothing is known of any variable of the name and the copy of one, nor of their cells.
pub fn forget_all<'a>(set: &mut FactSet<'a>, var: &'a Var) -> Result<(), AllocError>
    ensures below { OnOk result (set.new.below.items ≡ set.old.below.items) }
    ensures known { OnOk result (known_at set.new
        ≡ renewing.forgotten_at (variable_key var.now) (known_at set.old)) }
{
    let whole = whole_of(var);
    forget_cells(set, whole, true)?;
    set.put(whole, Knowledge::nothing())?;
    Ok(())
}

/// A cell of a stack array has a value.
pub fn add_cell<'a>(set: &mut FactSet<'a>, var: &'a Var, index: u64) -> Result<(), AllocError>
    ensures below { OnOk result (set.new.below.items ≡ set.old.below.items) }
    ensures known { OnOk result (known_at set.new
        ≡ renewing.with_cell (variable_key var.now) index (known_at set.old)) }
{
    set.put(Named::cell_of(var, index), Knowledge::only_set())?;
    Ok(())
}
