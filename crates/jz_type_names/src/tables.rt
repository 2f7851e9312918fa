//! Where names are declared, and functions by their names.

ghost use Rattle.std.specs.Prelude.{◌≡◌, ℕ, [], ◌∷◌, List, IfOk, OnOk, map, None};
ghost use Rattle.std.specs.Option.{option_copied};
ghost use Rattle.jz_type_names.specs.Scopes.{name_of, constant_name, variables_of};
ghost use Rattle.jz_type_names.specs.Tables.{AddsItem, PutsItem, Adds, IsPlaces, IsEarliestPlaces, IsFunctions, IsVariables, item_in, place_in, function_in, variable_in};

use crate::order::sooner;
use indexmap::IndexMap;
use jz_tree::{Const, Fun, Seq, Span, Text, Var};
use std::alloc::{AllocError, Global};

/// An item of each name.
#[derive(Drop)]
pub struct ByName<T> {
    items: IndexMap<Text, T>,
}

impl<T: Drop> ByName<T> {
    pub fn new(alloc: Global) -> ByName<T>
        ensures { (n : List ℕ) → item_in result n ≡ None }
    {
        ByName {
            items: IndexMap::new(alloc),
        }
    }

    /// The item of a name.
    pub fn get(&self, name: &Text) -> Option<&T>
        ensures { option_copied result ≡ item_in self.now name.now }
    {
        self.items.get(name)
    }

    /// Adds an item, which counts where none of that name is there yet.
    pub fn add(&mut self, name: &Text, item: T) -> Result<(), AllocError>
        ensures { OnOk result (AddsItem self.old self.new name.now item) }
    {
        if !self.items.contains_key(name) {
            self.items.insert(name.clone()?, item)?;
        }
        Ok(())
    }

    /// Puts an item in the place of what is there of that name.
    pub(crate) fn put(&mut self, name: &Text, item: T) -> Result<(), AllocError>
        ensures { OnOk result (PutsItem self.old self.new name.now item) }
    {
        self.items.insert(name.clone()?, item)?;
        Ok(())
    }
}

/// A place of each name.
#[derive(Drop)]
pub struct Places {
    places: ByName<Span>,
}

impl Places {
    pub fn new(alloc: Global) -> Places
        ensures first { IsPlaces result [] }
        ensures earliest { IsEarliestPlaces result [] }
    {
        Places {
            places: ByName::new(alloc),
        }
    }

    /// The place of a name.
    pub fn place(&self, name: &Text) -> Option<Span>
        ensures { result ≡ place_in self.now name.now }
    {
        match self.places.get(name) {
            None => None,
            Some(place) => Some(*place),
        }
    }

    /// Adds a name, which counts where it is not there yet.
    pub fn add(&mut self, name: &Text, span: Span) -> Result<(), AllocError>
        ensures { OnOk result (Adds IsPlaces self.old self.new ((name.now, span) ∷ [])) }
    {
        self.places.add(name, span)?;
        Ok(())
    }

    /// Adds a name, which counts where it is not there earlier in the text.
    pub fn add_earlier(&mut self, name: &Text, span: Span) -> Result<(), AllocError>
        ensures { OnOk result (Adds IsEarliestPlaces self.old self.new ((name.now, span) ∷ [])) }
    {
        let first = sooner(self.place(name), span);
        self.places.put(name, first)?;
        Ok(())
    }

    fn add_vars(&mut self, vars: &Seq<Var>) -> Result<(), AllocError>
        ensures { OnOk result (Adds IsPlaces self.old self.new (map name_of vars.now)) }
    {
        for var in vars.as_slice() {
            self.add(&var.name, var.span)?;
        }
        Ok(())
    }

    /// Where the parameters and variables of a function are declared.
    pub fn of_variables(alloc: Global, fun: &Fun) -> Result<Places, AllocError>
        ensures { IfOk result (λ places. IsPlaces places (map name_of (variables_of fun.now))) }
    {
        let mut places = Places::new(alloc);
        for param in fun.params.as_slice() {
            places.add(&param.var.name, param.var.span)?;
        }
        places.add_vars(&fun.vars)?;
        Ok(places)
    }

    /// Where constants are declared.
    pub fn of_constants(alloc: Global, consts: &Seq<Const>) -> Result<Places, AllocError>
        ensures { IfOk result (λ places. IsPlaces places (map constant_name consts.now)) }
    {
        let mut places = Places::new(alloc);
        for constant in consts.as_slice() {
            places.add(&constant.name, constant.span)?;
        }
        Ok(places)
    }
}

/// The functions of a program by their names.
#[derive(Drop)]
pub struct Functions<'a> {
    functions: ByName<&'a Fun>,
}

impl<'a> Functions<'a> {
    /// The function of that name.
    pub fn named(&self, name: &Text) -> Option<&'a Fun>
        ensures { option_copied result ≡ function_in self.now name.now }
    {
        match self.functions.get(name) {
            None => None,
            Some(fun) => Some(*fun),
        }
    }

    fn add(&mut self, fun: &'a Fun) -> Result<(), AllocError>
        ensures { OnOk result (Adds IsFunctions self.old self.new (fun.now ∷ [])) }
    {
        self.functions.add(&fun.name, fun)?;
        Ok(())
    }

    pub fn of(alloc: Global, funs: &'a Seq<Fun>) -> Result<Functions<'a>, AllocError>
        ensures { IfOk result (λ functions. IsFunctions functions funs.now) }
    {
        let mut functions = Functions {
            functions: ByName::new(alloc),
        };
        for fun in funs.as_slice() {
            functions.add(fun)?;
        }
        Ok(functions)
    }
}

/// The parameters and variables of a function by their names.
#[derive(Drop)]
pub struct Variables<'a> {
    variables: ByName<&'a Var>,
}

impl<'a> Variables<'a> {
    /// The variable of that name, as it is declared.
    pub fn named(&self, name: &Text) -> Option<&'a Var>
        ensures { option_copied result ≡ variable_in self.now name.now }
    {
        match self.variables.get(name) {
            None => None,
            Some(var) => Some(*var),
        }
    }

    fn add(&mut self, var: &'a Var) -> Result<(), AllocError>
        ensures { OnOk result (Adds IsVariables self.old self.new (var.now ∷ [])) }
    {
        self.variables.add(&var.name, var)?;
        Ok(())
    }

    fn add_all(&mut self, vars: &'a Seq<Var>) -> Result<(), AllocError>
        ensures { OnOk result (Adds IsVariables self.old self.new vars.now) }
    {
        for var in vars.as_slice() {
            self.add(var)?;
        }
        Ok(())
    }

    /// No variables.
    pub fn empty(alloc: Global) -> Variables<'a>
        ensures { IsVariables result [] }
    {
        Variables {
            variables: ByName::new(alloc),
        }
    }

    pub fn of(alloc: Global, fun: &'a Fun) -> Result<Variables<'a>, AllocError>
        ensures { IfOk result (λ variables. IsVariables variables (variables_of fun.now)) }
    {
        let mut variables = Variables::empty(alloc);
        for param in fun.params.as_slice() {
            variables.add(&param.var)?;
        }
        variables.add_all(&fun.vars)?;
        Ok(variables)
    }
}
