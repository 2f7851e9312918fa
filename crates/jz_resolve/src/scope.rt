//! The variables of a function by their names.

ghost use Rattle.std.specs.Prelude.{◌≡◌, IfOk, []};
ghost use Rattle.jz_type_names.specs.Scopes.{variables_of};
ghost use Rattle.jz_resolve.specs.InnerTables.{declared_by, place_by, is_constant_by, number_by, known_by, IsScope};

use crate::lookup::Lookup;
use crate::table::ConstantTable;
use jz_integers::Numbers;
use jz_tree::{Decl, Fun, Span, Text};
use jz_type_names::{Variables, above};
use std::alloc::{AllocError, Global};

/// The names that are known in a function.
#[derive(Drop)]
pub(crate) struct Scope<'a> {
    variables: Variables<'a>,
    constants: &'a ConstantTable,
}

impl Scope<'_> {
    /// No variables.
    pub(crate) fn empty(alloc: Global, constants: &ConstantTable) -> Scope<'_>
        ensures { IsScope result constants.now [] }
    {
        Scope {
            variables: Variables::empty(alloc),
            constants,
        }
    }

    /// The parameters and the variables of a function.
    pub(crate) fn of<'a>(
        alloc: Global,
        constants: &'a ConstantTable,
        fun: &'a Fun,
    ) -> Result<Scope<'a>, AllocError>
        ensures { IfOk result (λ scope. IsScope scope constants.now (variables_of fun.now)) }
    {
        let variables = Variables::of(alloc, fun)?;
        Ok(Scope {
            variables,
            constants,
        })
    }

    /// Where the variable of that name is declared.
    fn place(&self, name: &Text) -> Option<Span>
        ensures { result ≡ place_by self.now name.now }
    {
        match self.variables.named(name) {
            None => None,
            Some(var) => Some(var.span),
        }
    }

    /// Whether the name that stands there is that of a constant above, and of no variable above.
    fn is_constant(&self, name: &Text, at: Span) -> bool
        ensures { result ≡ is_constant_by self.now (name.now, at) }
    {
        !above(self.place(name), at) && self.constants.stands_above(name, at)
    }
}

impl Lookup for Scope<'_> {
    ghost known = { λ scope. known_by scope };

    fn declared(&self, alloc: Global, name: &Text) -> Result<Option<Decl>, AllocError>
        ensures { IfOk result (λ decl. decl ≡ declared_by self.now name.now) }
    {
        match self.variables.named(name) {
            None => Ok(self.constants.declared(name)),
            Some(var) => match &var.decl {
                None => Ok(self.constants.declared(name)),
                Some(decl) => Ok(Some(decl.copy(alloc)?)),
            },
        }
    }

    fn constant(&self, name: &Text, at: Span) -> Option<Option<i128>>
        ensures { result ≡ number_by self.now (name.now, at) }
    {
        if self.is_constant(name, at) {
            Some(self.constants.number(name, 0))
        } else {
            None
        }
    }
}
