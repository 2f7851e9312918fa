//! The numbers of inline variables, as they are known where a statement stands.

ghost use Rattle.std.specs.Prelude.{◌≡◌, [], OnOk, option_map};
ghost use Rattle.jz_meaning.specs.States.{as_value};
ghost use Rattle.jz_unroll.specs.Unrolling.{all_unknown};
ghost use Rattle.jz_unrolling_values.specs.Numbers.{no_numbers, numbers_in, changes_in, with_number_at};
ghost use Rattle.jz_unrolling_values.specs.Numbers.{held};
ghost use Rattle.jz_unrolling_values.specs.Numbers.{Sets, Went, IsRestored};

use jz_meaning::{Store, Value};
use jz_tree::{Seq, Text, Var};
use std::alloc::{AllocError, Global};
use std::mem::replace;

/// A number as what a variable holds.
fn as_held(number: Option<i128>) -> Option<Value>
    ensures { option_map as_value result ≡ held number }
{
    match number {
        None => None,
        Some(n) => Some(Value::Int(n)),
    }
}

/// What a number was before it was changed.
#[derive(Drop)]
pub struct Changed {
    pub name: Text,
    pub copy: u32,
    pub old: Option<i128>,
}

/// The numbers of inline variables that are known, and what they were before.
#[derive(Drop)]
pub struct Known {
    alloc: Global,
    numbers: Store,
    changed: Vec<Changed>,
}

impl Known {
    /// Nothing is known.
    pub fn new(alloc: Global) -> Known
        ensures numbers { numbers_in result ≡ no_numbers }
        ensures changed { changes_in result ≡ [] }
    {
        Known {
            alloc,
            numbers: Store::new(alloc),
            changed: Vec::new(alloc),
        }
    }

    /// The number of the variable of that name, in that copy.
    pub fn number(&self, name: &Text, copy: u32) -> Option<i128>
        ensures { result ≡ numbers_in self.now name.now copy }
    {
        match self.numbers.get(name, copy, None) {
            None => None,
            Some(Value::Int(n)) => Some(n),
            Some(Value::Bool(_)) => None,
            Some(Value::Word(_)) => None,
        }
    }

    /// Puts a number in the place of what was known.
    fn put(&mut self, name: &Text, copy: u32, number: Option<i128>) -> Result<(), AllocError>
        ensures numbers { OnOk result (numbers_in self.new
            ≡ with_number_at (numbers_in self.old) name.now copy number) }
        ensures changed { OnOk result (self.new.changed ≡ self.old.changed) }
    {
        self.numbers.put(name, copy, None, as_held(number))?;
        Ok(())
    }

    /// The variable has this number from here on, or none that is known.
    pub fn set(&mut self, name: &Text, copy: u32, number: Option<i128>) -> Result<(), AllocError>
        ensures { OnOk result (Sets self.old self.new name.now copy number) }
    {
        let old = self.number(name, copy);
        self.put(name, copy, number)?;
        self.changed.push(Changed {
            name: name.clone()?,
            copy,
            old,
        })?;
        Ok(())
    }

    /// Nothing is known of these variables from here on.
    pub fn forget(&mut self, vars: &Seq<Var>) -> Result<(), AllocError>
        ensures numbers { OnOk result (numbers_in self.new
            ≡ all_unknown (numbers_in self.old) vars.now) }
        ensures went { OnOk result (Went self.old self.new) }
    {
        for var in vars.as_slice() {
            self.set(&var.name, var.copy, None)?;
        }
        Ok(())
    }

    /// Begins a part whose changes are taken back afterwards; gives those before it.
    pub fn enter(&mut self) -> Vec<Changed>
        ensures outer { result.items ≡ changes_in self.old }
        ensures fresh { changes_in self.new ≡ [] }
        ensures numbers { numbers_in self.new ≡ numbers_in self.old }
    {
        replace(&mut self.changed, Vec::new(self.alloc))
    }

    /// Ends a part: its changes are taken back.
    pub fn leave(&mut self, outer: Vec<Changed>) -> Result<(), AllocError>
        ensures { OnOk result (IsRestored self.old self.new outer.items) }
    {
        while let Some(entry) = self.changed.pop() {
            self.put(&entry.name, entry.copy, entry.old)?;
        }
        self.changed = outer;
        Ok(())
    }
}
