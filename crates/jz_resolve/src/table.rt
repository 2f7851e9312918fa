//! The numbers of constants.

ghost use Rattle.std.specs.Prelude.{◌≡◌, option_map, IfOk, OnOk};
ghost use Rattle.jz_type_names.specs.Scopes.{constant_place};
ghost use Rattle.jz_type_names.specs.Names.{stands_above};
ghost use Rattle.jz_type_names.specs.Tables.{item_in};
ghost use Rattle.jz_resolve.specs.Numbering.{value_with, with_value, no_values, constant_decl};
ghost use Rattle.jz_resolve.specs.Tables.{values_in, places_in, IsTable};
ghost use Rattle.jz_resolve.specs.InnerTables.{with_number};

use jz_integers::{Constant, Numbers, inline_value};
use jz_tree::{Const, Decl, Expr, Seq, Span, Storage, Text, Ty};
use jz_type_names::{ByName, Places, above};
use std::alloc::{AllocError, Global};

/// The constants of a program by their names: where each stands, and its number where it has one.
#[derive(Drop)]
pub struct ConstantTable {
    places: Places,
    values: ByName<i128>,
}

impl Numbers for ConstantTable {
    ghost numbers = { λ constants name copy. item_in constants.values name };

    fn number(&self, name: &Text, _copy: u32) -> Option<i128>
        ensures { result ≡ item_in self.now.values name.now }
    {
        match self.values.get(name) {
            None => None,
            Some(number) => Some(*number),
        }
    }
}

impl ConstantTable {
    /// Whether a constant of that name stands above the place.
    pub(crate) fn stands_above(&self, name: &Text, at: Span) -> bool
        ensures { result ≡ stands_above (places_in self.now name.now) at }
    {
        above(self.places.place(name), at)
    }

    /// What is declared of a constant of that name.
    pub(crate) fn declared(&self, name: &Text) -> Option<Decl>
        ensures { result ≡ option_map (λ at. constant_decl) (places_in self.now name.now) }
    {
        match self.places.place(name) {
            None => None,
            Some(_) => Some(Decl {
                storage: Storage::Inline,
                ty: Ty::Int,
            }),
        }
    }

    /// The number of an expression that is built of numbers and constants, as the length of an
    /// array is; none, where it has no value.
    pub fn number_of(&self, alloc: Global, e: &Expr) -> Result<Option<i128>, AllocError>
        ensures { IfOk result (λ n. n ≡ value_with (values_in self.now) e.now) }
    {
        match inline_value(alloc, self, e)? {
            Some(Constant::Int(n)) => Ok(Some(n)),
            Some(Constant::Bool(_)) => Ok(None),
            None => Ok(None),
        }
    }

    fn put_value(&mut self, name: &Text, number: i128) -> Result<(), AllocError>
        ensures values { OnOk result
            (values_in self.new ≡ with_number (values_in self.old) name.now number) }
        ensures places { OnOk result (self.new.places ≡ self.old.places) }
    {
        self.values.add(name, number)?;
        Ok(())
    }

    fn add_value(&mut self, alloc: Global, c: &Const) -> Result<(), AllocError>
        ensures values { OnOk result (values_in self.new ≡ with_value (values_in self.old) c.now) }
        ensures places { OnOk result (self.new.places ≡ self.old.places) }
    {
        match self.number_of(alloc, &c.value)? {
            None => Ok(()),
            Some(number) => self.put_value(&c.name, number),
        }
    }

    fn with_places(alloc: Global, consts: &Seq<Const>) -> Result<ConstantTable, AllocError>
        ensures places { IfOk result (λ table. places_in table ≡ constant_place consts.now) }
        ensures values { IfOk result (λ table. values_in table ≡ no_values) }
    {
        let places = Places::of_constants(alloc, consts)?;
        Ok(ConstantTable {
            places,
            values: ByName::new(alloc),
        })
    }
}

/// The numbers of the constants, each by those above it.
pub fn constants(alloc: Global, consts: &Seq<Const>) -> Result<ConstantTable, AllocError>
    ensures { IfOk result (λ table. IsTable table consts.now) }
{
    let mut table = ConstantTable::with_places(alloc, consts)?;
    for c in consts.as_slice() {
        table.add_value(alloc, c)?;
    }
    Ok(table)
}
