//! Where the variables of a function are.

ghost use Rattle.std.specs.Prelude.{◌≡◌, None, Some, OnOk};
ghost use Rattle.jz_meaning.specs.Values.{key_of, ref_of};
ghost use Rattle.std.specs.Str.{bytes_eq};
ghost use Rattle.indexmap.specs.IndexMap.{get};
ghost use Rattle.jz_operands.specs.TableHomes.{entry_at, scalar_home, homes_of, entries_of};
ghost use Rattle.jz_operands.specs.TableHomes.{with_entry, no_entries, key_at, first_cell};
ghost use Rattle.jz_operands.specs.Refusals.{FindsOr, IsNoScalar};

use indexmap::IndexMap;
use jz_tree::{Size, Text, Var};
use std::alloc::{AllocError, Global};

/// What a variable of the text is over variables and stack variables, which are numbers.
#[derive(Clone, Copy)]
pub enum Home {
    /// A word in a variable.
    Word(u32, Size),
    /// A flag in a variable.
    Flag(u32),
    /// A word in a stack variable.
    Slot(u32, Size),
    /// The cells of an array in a stack variable, so many.
    Cells(u32, Size, u128),
}

/// A variable of a name, or one cell of it where it is a register array.
#[derive(Clone, Copy, PartialEq, Eq, Hash)]
pub(crate) struct Place {
    /// Which copy of a function's variables it belongs to.
    pub(crate) copy: u32,
    pub(crate) cell: Option<u32>,
}

/// The homes of variables. Each is found without going through all of them.
#[derive(Drop)]
pub struct Homes {
    alloc: Global,
    names: IndexMap<Text, IndexMap<Place, Home>>,
}

impl Homes {
    /// No variable has one.
    pub fn new(alloc: Global) -> Homes
        ensures { entries_of result ≡ no_entries }
    {
        Homes {
            alloc,
            names: IndexMap::new(alloc),
        }
    }

    /// The home of a variable, or of a cell of a register array.
    pub fn at(&self, name: &Text, copy: u32, cell: Option<u32>) -> Option<Home>
        ensures { result ≡ entry_at self.now name.now copy cell }
    {
        match self.names.get(name) {
            None => None,
            Some(places) => match places.get(&Place { copy, cell }) {
                None => None,
                Some(home) => Some(*home),
            },
        }
    }

    /// Places of a name that had none.
    fn begin(&mut self, name: &Text, place: Place, home: Home) -> Result<(), AllocError>
        requires { get bytes_eq self.old.names name.now ≡ None }
        ensures { OnOk result (entries_of self.new
            ≡ with_entry (entries_of self.old) (key_at name.now place) (Some home)) }
    {
        let mut places = IndexMap::new(self.alloc);
        places.insert(place, home)?;
        self.names.insert(name.clone()?, places)?;
        Ok(())
    }

    /// Gives a variable, or a cell of a register array, a home.
    pub fn put(
        &mut self,
        name: &Text,
        copy: u32,
        cell: Option<u32>,
        home: Home,
    ) -> Result<(), AllocError>
        ensures { OnOk result (entries_of self.new ≡ with_entry (entries_of self.old)
            (record { name = name.now; copy = copy; cell = cell }) (Some home)) }
    {
        let place = Place { copy, cell };
        match self.names.get_mut(name) {
            None => {}
            Some(places) => {
                places.insert(place, home)?;
                return Ok(());
            }
        }
        self.begin(name, place, home)
    }

    /// The home of a variable that is no array of the stack, nor a cell of one but the first.
    pub fn scalar(&self, var: &Var) -> Option<Home>
        ensures { let home = homes_of self.now (key_of (ref_of var.now)) in
            FindsOr result (λ found. home ≡ scalar_home (Some found)) (IsNoScalar home) }
    {
        match var.cell {
            None => self.at(&var.name, var.copy, None),
            Some(cell) => match self.at(&var.name, var.copy, None) {
                None => self.at(&var.name, var.copy, Some(cell)),
                Some(Home::Word(_, _)) => self.at(&var.name, var.copy, Some(cell)),
                Some(Home::Flag(_)) => self.at(&var.name, var.copy, Some(cell)),
                Some(Home::Slot(_, _)) => self.at(&var.name, var.copy, Some(cell)),
                Some(Home::Cells(of, size, count)) => first_of(cell, of, size, count),
            },
        }
    }
}

/// The first cell of an array of the stack is where a scalar is.
fn first_of(cell: u32, of: u32, size: Size, count: u128) -> Option<Home>
    ensures { result ≡ first_cell cell of size count }
{
    if cell == 0 && count > 0 {
        Some(Home::Slot(of, size))
    } else {
        None
    }
}
