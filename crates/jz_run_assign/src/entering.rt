//! Variables are unset, with all their cells.

ghost use Rattle.std.specs.Prelude.{◌≡◌, Some, None, OnOk};
ghost use Rattle.jz_meaning.specs.States as states;
ghost use Rattle.jz_meaning.specs.Stores.{store_of};
ghost use Rattle.jz_meaning.specs.Statements as statements;
ghost use Rattle.jz_meaning.specs.Values.{cell_key, ref_of};

use jz_meaning::{Kind, Store, kind_of};
use jz_tree::{Seq, Var};
use std::alloc::AllocError;

fn unset_cell(cell: u64, var: &Var, store: &mut Store)
    ensures { store_of store.new ≡ states.put (store_of store.old) (cell_key (ref_of var.now) cell)
        None }
{
    store.unset(&var.name, var.copy, Some(cell));
}

/// The first cells. No memory has room for more of them than a u64 can count.
fn unset_cells(cells: u128, var: &Var, store: &mut Store) -> Result<(), AllocError>
    ensures { OnOk result (store_of store.new ≡ statements.no_cells cells (ref_of var.now)
        (store_of store.old)) }
{
    if cells > u64::MAX as u128 {
        return Err(AllocError);
    }
    for cell in 0..cells as u64 {
        unset_cell(cell, var, store);
    }
    Ok(())
}

fn unset(var: &Var, store: &mut Store) -> Result<(), AllocError>
    ensures { OnOk result (store_of store.new ≡ statements.without (ref_of var.now).kind
        (ref_of var.now) (store_of store.old)) }
{
    match kind_of(var) {
        Kind::Array(_, cells) => unset_cells(cells, var, store),
        Kind::Undeclared | Kind::Int | Kind::Bool | Kind::Word(_) => {
            crate::unset(var, store);
            Ok(())
        }
    }
}

/// Takes away the values of variables, those of all cells of an array. Fails where an array has
/// more cells than a u64 can count.
pub fn unset_all(vars: &Seq<Var>, store: &mut Store) -> Result<(), AllocError>
    ensures { OnOk result (store_of store.new ≡ statements.all_unset vars.now
        (store_of store.old)) }
{
    for var in vars.as_slice() {
        unset(var, store)?;
    }
    Ok(())
}
