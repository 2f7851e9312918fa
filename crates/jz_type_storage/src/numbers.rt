//! The numbers of functions: how many stand above.

ghost use Rattle.std.specs.Prelude.{◌≡◌, [], ◌∷◌, ◌++◌, List, length, IfOk, OnOk};
ghost use Rattle.jz_tree.specs.declared.program.Fun.{Fun};
ghost use Rattle.jz_type_storage.specs.InnerTables.{IsNumbers, number_in};

use indexmap::IndexMap;
use jz_tree::{Fun, Seq, Text};
use std::alloc::{AllocError, Global};

/// The number of the first function of each name.
#[derive(Drop)]
pub struct Numbers {
    numbers: IndexMap<Text, usize>,
}

impl Numbers {
    fn empty(alloc: Global) -> Numbers
        ensures { IsNumbers result [] }
    {
        Numbers {
            numbers: IndexMap::new(alloc),
        }
    }

    pub fn number(&self, name: &Text) -> Option<usize>
        ensures { result ≡ number_in self.now name.now }
    {
        match self.numbers.get(name) {
            None => None,
            Some(number) => Some(*number),
        }
    }

    fn add(&mut self, fun: &Fun, number: usize) -> Result<(), AllocError>
        ensures { (fs : List Fun) → IsNumbers self.old fs → number ≡ length fs
            → OnOk result (IsNumbers self.new (fs ++ fun.now ∷ [])) }
    {
        if !self.numbers.contains_key(&fun.name) {
            self.numbers.insert(fun.name.clone()?, number)?;
        }
        Ok(())
    }

    pub fn of(alloc: Global, funs: &Seq<Fun>) -> Result<Numbers, AllocError>
        ensures { IfOk result (λ numbers. IsNumbers numbers funs.now) }
    {
        let mut numbers = Numbers::empty(alloc);
        for (i, fun) in funs.as_slice().iter().enumerate() {
            numbers.add(fun, i)?;
        }
        Ok(numbers)
    }
}
