//! The numbers of inline variables, as they are known where a statement stands.

ghost use Rattle.std.specs.Prelude.{◌≡◌, OnOk, option_map};
ghost use Rattle.jz_limits.specs.InnerKnown.{held, number_held, numbers_of};
ghost use Rattle.jz_limits.specs.Values.{no_numbers, number_of, with_number};
ghost use Rattle.jz_meaning.specs.States.{as_value};

use jz_integers::Numbers;
use jz_meaning::{Store, Value};
use jz_tree::{Text, Var};
use std::alloc::{AllocError, Global};

/// What is known of the inline variables of one function.
#[derive(Drop)]
pub struct Known {
    store: Store,
}

fn number_held(value: Option<Value>) -> Option<i128>
    ensures { result ≡ number_held (option_map as_value value) }
{
    match value {
        None => None,
        Some(Value::Word(_)) => None,
        Some(Value::Bool(_)) => None,
        Some(Value::Int(n)) => Some(n),
    }
}

fn as_held(number: Option<i128>) -> Option<Value>
    ensures { option_map as_value result ≡ held number }
{
    match number {
        None => None,
        Some(n) => Some(Value::Int(n)),
    }
}

impl Numbers for Known {
    ghost numbers = { numbers_of };

    fn number(&self, name: &Text, copy: u32) -> Option<i128>
        ensures { result ≡ numbers_of self.now name.now copy }
    {
        number_held(self.store.get(name, copy, None))
    }
}

impl Known {
    /// Nothing is known.
    pub fn new(alloc: Global) -> Known
        ensures { numbers_of result ≡ no_numbers }
    {
        Known {
            store: Store::new(alloc),
        }
    }

    /// Sets an inline variable, or forgets its number.
    pub fn set(&mut self, var: &Var, number: Option<i128>) -> Result<(), AllocError>
        ensures { let after = with_number (numbers_of self.old) var.now number in
            OnOk result (numbers_of self.new ≡ after) }
    {
        self.store.put(&var.name, var.copy, None, as_held(number))?;
        Ok(())
    }

    /// The number of an inline variable.
    pub fn of(&self, var: &Var) -> Option<i128>
        ensures { result ≡ number_of (numbers_of self.now) var.now }
    {
        number_held(self.store.get(&var.name, var.copy, None))
    }
}
