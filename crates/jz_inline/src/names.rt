//! Where the variables of a function are in a copy of its body.

ghost use Rattle.std.specs.Prelude.{◌≡◌, IfOk, Some};
ghost use Rattle.jz_meaning.specs.Values.{ref_of};
ghost use Rattle.jz_meaning.specs.Statements.{array_of};
ghost use Rattle.jz_bodies.specs.Calls as calls;
ghost use Rattle.jz_inline.specs.Names.{var_in};
ghost use Rattle.jz_inline.specs.Calls.{callee_names, name_or};
ghost use Rattle.jz_inline.specs.Functions.{own_names};
ghost use Rattle.jz_inline.specs.CopiedNames.{names_of, renamed_or};

use jz_meaning::{Kind, kind_of};
use jz_tree::{Decl, Expr, Param, Seq, Text, Var};
use jz_type_names::ByName;
use std::alloc::{AllocError, Global};

/// A variable by its name and the number of its copy.
#[derive(Drop)]
pub struct Renamed {
    pub name: Text,
    pub copy: u32,
}

/// Where the variables of a function are in a copy: arrays that were passed are elsewhere, all
/// others have the number of the copy.
#[derive(Drop)]
pub struct NamesInCopy {
    arrays: ByName<Renamed>,
    copy: u32,
}

/// Whether a variable is an array, which is never copied.
pub fn is_array(var: &Var) -> bool
    ensures { result ≡ calls.is_array (ref_of var.now).kind }
{
    match kind_of(var) {
        Kind::Array(_, _) => true,
        Kind::Undeclared => false,
        Kind::Int => false,
        Kind::Bool => false,
        Kind::Word(_) => false,
    }
}

fn copy_decl(alloc: Global, decl: &Option<Decl>) -> Result<Option<Decl>, AllocError>
    ensures { IfOk result (λ copy. copy ≡ decl.now) }
{
    match decl {
        None => Ok(None),
        Some(decl) => Ok(Some(decl.copy(alloc)?)),
    }
}

impl NamesInCopy {
    /// The names of a function that is not copied.
    pub fn own(alloc: Global) -> NamesInCopy
        ensures { names_of result ≡ own_names }
    {
        NamesInCopy {
            arrays: ByName::new(alloc),
            copy: 0,
        }
    }

    /// Where the variable of that name is.
    fn place(&self, name: &Text) -> Result<Renamed, AllocError>
        ensures { let place = names_of self.now name.now in
            IfOk result (λ r. renamed_or (Some r) place ≡ place) }
    {
        match self.arrays.get(name) {
            None => Ok(Renamed {
                name: name.clone()?,
                copy: self.copy,
            }),
            Some(renamed) => Ok(Renamed {
                name: renamed.name.clone()?,
                copy: renamed.copy,
            }),
        }
    }

    /// The variable as it is in the copy.
    pub fn variable(&self, alloc: Global, var: &Var) -> Result<Var, AllocError>
        ensures { IfOk result (λ copy. copy ≡ var_in (names_of self.now) var.now) }
    {
        let decl = copy_decl(alloc, &var.decl)?;
        let Renamed { name, copy } = self.place(&var.name)?;
        Ok(Var {
            name,
            copy,
            cell: var.cell,
            decl,
            span: var.span,
        })
    }

    /// Where an array is that is passed as the parameter of that name.
    fn passed(&self, param: &Text, arg: &Expr) -> Result<Renamed, AllocError>
        ensures { let passed = name_or param.now (array_of arg.now) in
            let place = names_of self.now passed in
            IfOk result (λ r. renamed_or (Some r) place ≡ place) }
    {
        match arg {
            Expr::Var(var) => self.place(&var.name),
            Expr::Num(_, _) => self.place(param),
            Expr::Bool(_, _) => self.place(param),
            Expr::Cell(_, _) => self.place(param),
            Expr::Load(_) => self.place(param),
            Expr::Neg(_, _) => self.place(param),
            Expr::Not(_, _) => self.place(param),
            Expr::Cast { .. } => self.place(param),
            Expr::Bin(_, _, _, _) => self.place(param),
        }
    }

    /// The names of a function in the copy that a call makes of it.
    pub fn of_callee(
        &self,
        alloc: Global,
        copy: u32,
        params: &Seq<Param>,
        args: &Seq<Expr>,
    ) -> Result<NamesInCopy, AllocError>
        ensures { let names = callee_names (names_of self.now) copy params.now args.now in
            IfOk result (λ inner. names_of inner ≡ names) }
    {
        let mut arrays = ByName::new(alloc);
        for (i, param) in params.as_slice().iter().enumerate() {
            match args.get(i) {
                None => break,
                Some(arg) => {
                    if is_array(&param.var) {
                        let renamed = self.passed(&param.var.name, arg)?;
                        arrays.add(&param.var.name, renamed)?;
                    }
                }
            }
        }
        Ok(NamesInCopy { arrays, copy })
    }
}
