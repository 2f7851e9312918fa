//! The functions that a call can copy.

ghost use Rattle.std.specs.Prelude.{◌≡◌, IfOk};
ghost use Rattle.std.specs.Option.{option_copied};
ghost use Rattle.jz_type_names.specs.Tables.{IsFunctions};
ghost use Rattle.jz_copies.specs.Called.{called_function};

use jz_tree::{BinOp, Expr, Fun, Seq, Text};
use jz_type_names::Functions;
use std::alloc::{AllocError, Global};

/// The functions of a program, each found by its name without going through all of them.
#[derive(Drop)]
pub struct Callable<'a> {
    pub funs: &'a Seq<Fun>,
    pub table: Functions<'a>,
    pub ghost by_name: { IsFunctions table funs.now },
}

impl<'a> Callable<'a> {
    pub fn of(alloc: Global, funs: &'a Seq<Fun>) -> Result<Callable<'a>, AllocError>
        ensures { IfOk result (λ callable. callable.funs.now ≡ funs.now) }
    {
        let table = Functions::of(alloc, funs)?;
        Ok(Callable { funs, table })
    }

    /// The function that a call copies, where calls may be so deep; none where the call has an
    /// operation or a condition.
    pub fn called(
        &self,
        depth: usize,
        op: Option<BinOp>,
        name: &Text,
        cond: &Option<Expr>,
    ) -> Option<&'a Fun>
        ensures { let funs = self.now.funs.now in
            option_copied result ≡ called_function funs depth op name.now cond.now }
    {
        if depth == 0 {
            return None;
        }
        match op {
            Some(_) => None,
            None => match cond {
                Some(_) => None,
                None => self.table.named(name),
            },
        }
    }
}
