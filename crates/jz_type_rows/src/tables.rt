//! Tables of names.

ghost use Rattle.std.specs.Prelude.{◌≡◌, ℕ, nat_eq, [], ◌∷◌, ◌++◌, List, length, IfOk, OnOk};
ghost use Rattle.std.specs.List.{list_any};
ghost use Rattle.std.specs.Str.{bytes_eq};
ghost use Rattle.jz_type_rows.specs.Callees.{index_where};
ghost use Rattle.jz_type_rows.specs.InnerTables.{HasNames, HasNumbers, HasPlaces};

use indexmap::IndexSet;
use jz_tree::Text;
use jz_type_names::ByName;
use std::alloc::{AllocError, Global};

/// A set of names.
#[derive(Drop)]
pub(crate) struct Names {
    texts: IndexSet<Text>,
}

impl Names {
    pub(crate) fn new(alloc: Global) -> Names
        ensures { HasNames result [] }
    {
        Names {
            texts: IndexSet::new(alloc),
        }
    }

    pub(crate) fn has(&self, name: &Text) -> bool
        ensures { (ns : List (List ℕ)) → HasNames self.now ns
            → result ≡ list_any (bytes_eq name.now) ns }
    {
        self.texts.contains(name)
    }

    pub(crate) fn add(&mut self, name: &Text) -> Result<(), AllocError>
        ensures { (ns : List (List ℕ)) → HasNames self.old ns
            → OnOk result (HasNames self.new (ns ++ name.now ∷ [])) }
    {
        self.texts.insert(name.clone()?)?;
        Ok(())
    }
}

/// A set of numbers.
#[derive(Drop)]
pub(crate) struct Numbers {
    numbers: IndexSet<usize>,
}

impl Numbers {
    fn new(alloc: Global) -> Numbers
        ensures { HasNumbers result [] }
    {
        Numbers {
            numbers: IndexSet::new(alloc),
        }
    }

    pub(crate) fn has(&self, number: usize) -> bool
        ensures { (ns : List ℕ) → HasNumbers self.now ns → result ≡ list_any (nat_eq number) ns }
    {
        self.numbers.contains(&number)
    }

    fn add(&mut self, number: usize) -> Result<(), AllocError>
        ensures { (ns : List ℕ) → HasNumbers self.old ns
            → OnOk result (HasNumbers self.new (ns ++ number ∷ [])) }
    {
        self.numbers.insert(number)?;
        Ok(())
    }

    pub(crate) fn of(alloc: Global, list: &[usize]) -> Result<Numbers, AllocError>
        ensures { IfOk result (λ s. HasNumbers s list.now) }
    {
        let mut numbers = Numbers::new(alloc);
        for number in list {
            numbers.add(*number)?;
        }
        Ok(numbers)
    }
}

/// The first place of a name in a list.
pub(crate) fn place(places: &ByName<usize>, name: &Text) -> Option<usize>
    ensures { (ns : List (List ℕ)) → HasPlaces places.now ns
        → result ≡ index_where (bytes_eq name.now) ns }
{
    match places.get(name) {
        None => None,
        Some(place) => Some(*place),
    }
}

/// Adds the name that stands behind those of the list.
pub(crate) fn add_place(
    places: &mut ByName<usize>,
    name: &Text,
    place: usize,
) -> Result<(), AllocError>
    ensures { (ns : List (List ℕ)) → place ≡ length ns → HasPlaces places.old ns
        → OnOk result (HasPlaces places.new (ns ++ name.now ∷ [])) }
{
    places.add(name, place)?;
    Ok(())
}
