//! The functions that a run can call.

ghost use Rattle.std.specs.Prelude.{◌≡◌, IfOk};
ghost use Rattle.std.specs.Option.{option_copied};
ghost use Rattle.jz_type_names.specs.Scopes.{function_named};
ghost use Rattle.jz_type_names.specs.Tables.{IsFunctions};

use jz_tree::{Fun, Seq, Text};
use jz_type_names::Functions;
use std::alloc::{AllocError, Global};

/// The functions of a program, each found by its name without going through all of them.
#[derive(Drop)]
pub struct Code<'a> {
    pub alloc: Global,
    pub funs: &'a Seq<Fun>,
    pub table: Functions<'a>,
    pub ghost by_name: { IsFunctions table funs.now },
}

impl<'a> Code<'a> {
    pub fn of(alloc: Global, funs: &'a Seq<Fun>) -> Result<Code<'a>, AllocError>
        ensures { IfOk result (λ code. code.funs.now ≡ funs.now) }
    {
        let table = Functions::of(alloc, funs)?;
        Ok(Code { alloc, funs, table })
    }

    /// The first function of that name.
    pub fn named(&self, name: &Text) -> Option<&'a Fun>
        ensures { option_copied result ≡ function_named name.now self.now.funs.now }
    {
        self.table.named(name)
    }
}
