//! Left sides whose cells are scalars.

ghost use Rattle.std.specs.Prelude.{◌≡◌, IfOk, map};
ghost use Rattle.jz_arrays.specs.Cells as cells;

use crate::cells::{register_cell, scalar};
use crate::expressions::{access_with_scalars, boxed_with_scalars};
use jz_tree::{Boxed, Expr, Lval, Seq, Var};
use std::alloc::{AllocError, Global};

/// A cell of an array on the left: a scalar, or a cell whose index has scalars.
fn left_cell(alloc: Global, array: &Var, at: &Boxed<Expr>) -> Result<Lval, AllocError>
    ensures { let size = cells.size_at array.now in
        let number = cells.cell_in array.now at.now in
        IfOk result (λ made. made ≡ cells.left_or array.now at.now size number) }
{
    match register_cell(array, at.get()) {
        Some(cell) => Ok(Lval::Var(scalar(alloc, array, cell)?)),
        None => {
            let array = array.copy(alloc)?;
            Ok(Lval::Cell(array, boxed_with_scalars(alloc, at)?))
        }
    }
}

fn left_with_scalars(alloc: Global, to: &Lval) -> Result<Lval, AllocError>
    ensures { IfOk result (λ made. made ≡ cells.left_with_scalars to.now) }
{
    match to {
        Lval::Skip(span) => Ok(Lval::Skip(*span)),
        Lval::Var(var) => Ok(Lval::Var(var.copy(alloc)?)),
        Lval::Cell(array, at) => {
            let cell = left_cell(alloc, array, at)?;
            Ok(cell)
        }
        Lval::Store(access) => Ok(Lval::Store(access_with_scalars(alloc, access)?)),
    }
}

/// Left sides with scalars.
pub(crate) fn lefts_with_scalars(alloc: Global, to: &Seq<Lval>) -> Result<Seq<Lval>, AllocError>
    ensures { IfOk result (λ made. made ≡ map cells.left_with_scalars to.now) }
{
    to.try_map(alloc, |left| left_with_scalars(alloc, left))
}
