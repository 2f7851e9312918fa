//! Tables of variables, each over those below it.

ghost use Rattle.std.specs.Prelude.{◌≡◌, ◌⊎◌, ◌++◌, ◌∷◌, [], ℕ, true, false, is_some, Some, None, IfOk, OnOk, slice_get, length, ◌<◌};
ghost use Rattle.std.specs.Option.{option_map};
ghost use Rattle.jz_layers.specs.Spots.{Spot, same_spot, spot_of, entry_in, over, seen_in, put_in, nowhere, is_noted, AreListed, IsListed};
ghost use Rattle.jz_layers.specs.Spots.{without_index, cell_at, AreHeld};

use crate::named::Named;
use indexmap::IndexMap;
use std::alloc::{AllocError, Global};
use std::mem;

/// What variables have by tables, each over those below it: what the uppermost table says of a
/// variable counts.
#[derive(Drop)]
pub struct Layers<'a, V> {
    alloc: Global,
    /// The cells that a table knows of, or knew of.
    noted: IndexMap<Named<'a>, ()>,
    /// The stack arrays of these cells.
    arrays: IndexMap<Named<'a>, ()>,
    below: Vec<IndexMap<Named<'a>, V>>,
    top: IndexMap<Named<'a>, V>,
    ghost listed: { AreListed noted (top ∷ below.items) },
    ghost held: { AreHeld noted arrays },
}

/// Notes what is a cell.
fn note<'a>(noted: &mut IndexMap<Named<'a>, ()>, named: Named<'a>) -> Result<(), AllocError>
    ensures grows { (k : Spot) → is_noted noted.old k ≡ true → is_noted noted.new k ≡ true }
    ensures there { OnOk result (is_noted noted.new (spot_of named.entry) ≡ true) }
    ensures alone { (k : Spot) → is_some (entry_in noted.new k) ≡ true
        → (is_some (entry_in noted.old k) ≡ true) ⊎ (same_spot (spot_of named.entry) k ≡ true) }
{
    if named.cell.is_none() && named.index.is_none() {
        return Ok(());
    }
    noted.insert(named, ())?;
    Ok(())
}

/// Holds the array of what is a cell by an index.
fn hold<'a>(arrays: &mut IndexMap<Named<'a>, ()>, named: Named<'a>) -> Result<(), AllocError>
    ensures grows { (k : Spot)
        → is_some (entry_in arrays.old k) ≡ true → is_some (entry_in arrays.new k) ≡ true }
    ensures there { OnOk result ((i : ℕ) → named.entry.index ≡ Some i
        → is_some (entry_in arrays.new (without_index (spot_of named.entry))) ≡ true) }
{
    if named.index.is_none() {
        return Ok(());
    }
    arrays.insert(named.whole(), ())?;
    Ok(())
}

impl<'a, V: Copy> Layers<'a, V> {
    ghost use Rattle.jz_layers.specs.Layered.{seen, ClosesTo, IsOver};

    /// One table, in which nothing is.
    pub fn new(alloc: Global) -> Layers<'a, V>
        ensures { seen result ≡ nowhere }
    {
        Layers {
            alloc,
            noted: IndexMap::new(alloc),
            arrays: IndexMap::new(alloc),
            below: Vec::new(alloc),
            top: IndexMap::new(alloc),
        }
    }

    /// Where the tables' memory is taken from.
    pub fn allocator(&self) -> Global {
        self.alloc
    }

    fn found_below(&self, named: Named<'a>) -> Option<V>
        ensures { result ≡ seen_in self.now.below.items (spot_of named.entry) }
    {
        let tables = self.below.as_slice();
        let mut i = tables.len();
        while i > 0 {
            i -= 1;
            match tables[i].get(&named) {
                Some(value) => return Some(*value),
                None => {}
            }
        }
        None
    }

    /// What a variable has.
    pub fn get(&self, named: Named<'a>) -> Option<V>
        ensures { result ≡ seen self.now (spot_of named.entry) }
    {
        match self.top.get(&named) {
            Some(value) => Some(*value),
            None => self.found_below(named),
        }
    }

    /// How many cells are noted.
    pub fn noted(&self) -> usize
        ensures count { result ≡ length self.now.noted.entries }
        ensures listed { IsListed self.now.noted (seen self.now) }
    {
        self.noted.len()
    }

    /// The cell that was noted so many others before it.
    pub fn noted_at(&self, index: usize) -> Option<Named<'a>>
        ensures { result ≡ option_map (λ e. e.0) (slice_get self.now.noted.entries index) }
    {
        match self.noted.get_index(index) {
            None => None,
            Some(entry) => Some(*entry.0),
        }
    }

    /// Whether some cell by an index may be known of what is named.
    pub fn has_cells(&self, named: Named<'a>) -> bool
        ensures { result ≡ false
            → (i : ℕ) → seen self.now (cell_at (spot_of named.entry) i) ≡ None }
    {
        match self.arrays.get(&named.whole()) {
            Some(_) => true,
            None => false,
        }
    }

    /// Gives a variable a value in the uppermost table.
    pub fn put(&mut self, named: Named<'a>, value: V) -> Result<(), AllocError>
        ensures below { self.new.below.items ≡ self.old.below.items }
        ensures table { OnOk result (entry_in self.new.top
            ≡ put_in (entry_in self.old.top) (spot_of named.entry) value) }
        ensures put { OnOk result (seen self.new
            ≡ put_in (seen self.old) (spot_of named.entry) value) }
    {
        hold(&mut self.arrays, named)?;
        note(&mut self.noted, named)?;
        self.top.insert(named, value)?;
        Ok(())
    }

    /// The same of what is noted, if it is a cell.
    pub fn put_noted(&mut self, named: Named<'a>, value: V) -> Result<(), AllocError>
        requires { is_noted self.old.noted (spot_of named) ≡ true }
        ensures noted { self.new.noted ≡ self.old.noted }
        ensures below { self.new.below.items ≡ self.old.below.items }
        ensures put { OnOk result (seen self.new
            ≡ put_in (seen self.old) (spot_of named.entry) value) }
    {
        self.top.insert(named, value)?;
        Ok(())
    }

    /// A new table over the others, in which nothing is.
    pub fn open(&mut self) -> Result<(), AllocError>
        ensures below { OnOk result (self.new.below.items
            ≡ self.old.below.items ++ self.old.top ∷ []) }
        ensures seen { OnOk result (seen self.new ≡ seen self.old) }
        ensures empty { OnOk result (entry_in self.new.top ≡ nowhere) }
    {
        let table = mem::replace(&mut self.top, IndexMap::new(self.alloc));
        self.below.push(table)?;
        Ok(())
    }

    /// Takes away the uppermost table, which is not the only one.
    pub fn close(&mut self) -> IndexMap<Named<'a>, V>
        requires { IsOver self.old }
        ensures table { result ≡ self.old.top }
        ensures below { ClosesTo self.old self.new }
    {
        match self.below.pop() {
            None => unreachable!(),
            Some(table) => mem::replace(&mut self.top, table),
        }
    }

    /// Puts all of a table into the uppermost one.
    pub fn pour(&mut self, table: &IndexMap<Named<'a>, V>) -> Result<(), AllocError>
        ensures below { OnOk result (self.new.below.items ≡ self.old.below.items) }
        ensures table { OnOk result (entry_in self.new.top
            ≡ over table.now (entry_in self.old.top)) }
        ensures seen { OnOk result (seen self.new ≡ over table.now (seen self.old)) }
    {
        let count = table.len();
        let mut i = 0;
        while i < count {
            match table.get_index(i) {
                None => unreachable!(),
                Some(entry) => self.put(*entry.0, *entry.1)?,
            }
            i += 1;
        }
        Ok(())
    }

    /// The same values, in one table.
    pub fn copy(&self) -> Result<Layers<'a, V>, AllocError>
        ensures { IfOk result (λ copy. seen copy ≡ seen self.now) }
    {
        let mut copy = Layers::new(self.alloc);
        let count = self.below.len();
        let mut i = 0;
        while i < count {
            copy.pour(&self.below[i])?;
            i += 1;
        }
        copy.pour(&self.top)?;
        Ok(copy)
    }
}
