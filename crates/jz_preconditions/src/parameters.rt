//! The parameters of a function by their names.

ghost use Rattle.std.specs.Prelude.{◌≡◌, ◌≤◌, ◌^◌, [], ◌∷◌, OnOk, IfOk};
ghost use Rattle.std.specs.Option.{option_copied};
ghost use Rattle.jz_preconditions.specs.Naming.{is_pointer, values_of, known_by};
ghost use Rattle.jz_preconditions.specs.InnerTables.{AddsVariables, IsParameters, parameter_in};
ghost use Rattle.jz_preconditions.specs.InnerTables.{parameter_list};

use jz_tree::{Fun, Size, Storage, Text, Var};
use jz_type_names::{ByName, Declared, Kind, known, same_kind, same_storage};
use std::alloc::{AllocError, Global};

/// The first parameter of each name.
#[derive(Drop)]
pub(crate) struct Parameters<'a> {
    variables: ByName<&'a Var>,
}

impl<'a> Parameters<'a> {
    /// The parameter of that name.
    pub(crate) fn named(&self, name: &Text) -> Option<&'a Var>
        ensures { option_copied result ≡ parameter_in self.now name.now }
    {
        match self.variables.get(name) {
            None => None,
            Some(var) => Some(*var),
        }
    }

    fn add(&mut self, var: &'a Var) -> Result<(), AllocError>
        ensures { OnOk result (AddsVariables self.old self.new (var.now ∷ [])) }
    {
        self.variables.add(&var.name, var)?;
        Ok(())
    }

    fn empty(alloc: Global) -> Parameters<'a>
        ensures { IsParameters result [] }
    {
        Parameters {
            variables: ByName::new(alloc),
        }
    }

    pub(crate) fn of(alloc: Global, fun: &'a Fun) -> Result<Parameters<'a>, AllocError>
        ensures { IfOk result (λ parameters. IsParameters parameters (parameter_list fun.now)) }
    {
        let mut parameters = Parameters::empty(alloc);
        for param in fun.params.as_slice() {
            parameters.add(&param.var)?;
        }
        Ok(parameters)
    }
}

/// Whether it is a word of 64 bits in a register.
pub(crate) fn is_pointer(known: Option<Declared>) -> bool
    ensures { result ≡ is_pointer known }
{
    match known {
        None => false,
        Some(d) => {
            same_storage(d.storage, Storage::Reg) && same_kind(d.kind, Kind::Word(Size::S64))
        }
    }
}

/// How many values a variable has.
pub(crate) fn values_of(known: Option<Declared>) -> u128
    ensures value { result ≡ values_of known }
    ensures most { result ≤ 2 ^ 64 }
{
    match known {
        None => 1 << 64,
        Some(d) => match d.kind {
            Kind::Word(size) => size.modulus(),
            _ => 1 << 64,
        },
    }
}

/// What is declared of a parameter, where there is one.
pub(crate) fn known_by(var: Option<&Var>) -> Option<Declared>
    ensures { result ≡ known_by (option_copied var.entry) }
{
    match var {
        None => None,
        Some(var) => known(var),
    }
}
