//! What has a value.

ghost use Rattle.std.specs.Prelude.{◌≡◌, None, OnOk, option_map};
ghost use Rattle.jz_meaning.specs.States as states;
ghost use Rattle.jz_meaning.specs.States.{as_value};
ghost use Rattle.jz_meaning.specs.Stores.{store_of, key_of};
ghost use Rattle.indexmap.specs.IndexMap.{get};
ghost use Rattle.std.specs.Str.{bytes_eq};

use crate::value::Value;
use indexmap::IndexMap;
use jz_tree::Text;
use std::alloc::{AllocError, Global};

/// A variable of a name, or one cell of it where it is an array.
#[derive(Clone, Copy, PartialEq, Eq, Hash)]
struct Place {
    /// Which copy of a function's variables it belongs to.
    copy: u32,
    cell: Option<u64>,
}

/// The values of variables and of cells. Each is found without going through all of them.
#[derive(Drop)]
pub struct Store {
    alloc: Global,
    names: IndexMap<Text, IndexMap<Place, Option<Value>>>,
}

impl Store {
    /// Nothing has a value.
    pub fn new(alloc: Global) -> Store
        ensures { store_of result ≡ states.empty_store }
    {
        Store {
            alloc,
            names: IndexMap::new(alloc),
        }
    }

    /// What it takes its memory from.
    pub fn allocator(&self) -> Global {
        self.alloc
    }

    /// The value of a variable or of a cell.
    pub fn get(&self, name: &Text, copy: u32, cell: Option<u64>) -> Option<Value>
        ensures { option_map as_value result ≡ store_of self.now
            (record { name = name.now; copy = copy; cell = cell }) }
    {
        match self.names.get(name) {
            None => None,
            Some(places) => match places.get(&Place { copy, cell }) {
                None => None,
                Some(value) => *value,
            },
        }
    }
    /// Places of a name that had none.
    fn begin(&mut self, name: &Text, place: Place, value: Option<Value>) -> Result<(), AllocError>
        requires { get bytes_eq self.old.names name.now ≡ None }
        ensures { OnOk result (store_of self.new ≡ states.put (store_of self.old)
            (key_of name.now place) (option_map as_value value)) }
    {
        let mut places = IndexMap::new(self.alloc);
        places.insert(place, value)?;
        self.names.insert(name.clone()?, places)?;
        Ok(())
    }

    /// Gives a variable or a cell a value, or takes away what it has.
    pub fn put(
        &mut self,
        name: &Text,
        copy: u32,
        cell: Option<u64>,
        value: Option<Value>,
    ) -> Result<(), AllocError>
        ensures { OnOk result (store_of self.new ≡ states.put (store_of self.old)
            (record { name = name.now; copy = copy; cell = cell }) (option_map as_value value)) }
    {
        let place = Place { copy, cell };
        match self.names.get_mut(name) {
            None => {}
            Some(places) => {
                places.insert(place, value)?;
                return Ok(());
            }
        }
        self.begin(name, place, value)
    }
    /// Takes away what a variable or a cell has.
    pub fn unset(&mut self, name: &Text, copy: u32, cell: Option<u64>)
        ensures { store_of self.new ≡ states.put (store_of self.old)
            (record { name = name.now; copy = copy; cell = cell }) None }
    {
        match self.names.get_mut(name) {
            None => {}
            Some(places) => {
                places.swap_remove(&Place { copy, cell });
            }
        }
    }
}
