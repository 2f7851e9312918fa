//! Variables as the store keeps them.

ghost use Rattle.std.specs.Prelude.{◌≡◌, OnOk, None, option_map};
ghost use Rattle.jz_meaning.specs.States.{as_value, put};
ghost use Rattle.jz_meaning.specs.Stores.{store_of};
ghost use Rattle.jz_meaning.specs.Values.{key_of, ref_of};

use jz_meaning::{Store, Value};
use jz_tree::Var;
use std::alloc::AllocError;

/// Which cell of an array a variable is, where arrays became scalars.
fn cell_of(var: &Var) -> Option<u64>
    ensures { result ≡ (ref_of var.now).cell }
{
    match var.cell {
        None => None,
        Some(cell) => Some(u64::from(cell)),
    }
}

/// What a variable has.
pub fn value_of(var: &Var, store: &Store) -> Option<Value>
    ensures { option_map as_value result ≡ store_of store.now (key_of (ref_of var.now)) }
{
    store.get(&var.name, var.copy, cell_of(var))
}

/// Gives a variable a value, or takes away what it has.
pub fn set(var: &Var, value: Option<Value>, store: &mut Store) -> Result<(), AllocError>
    ensures { OnOk result (store_of store.new ≡ put (store_of store.old) (key_of (ref_of var.now))
        (option_map as_value value)) }
{
    store.put(&var.name, var.copy, cell_of(var), value)
}

/// Takes away what a variable has.
pub fn unset(var: &Var, store: &mut Store)
    ensures { store_of store.new ≡ put (store_of store.old) (key_of (ref_of var.now)) None }
{
    store.unset(&var.name, var.copy, cell_of(var));
}
