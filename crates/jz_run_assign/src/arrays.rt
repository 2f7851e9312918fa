//! Cells of arrays. The caller's go into a call and come back from it.

ghost use Rattle.std.specs.Prelude.{◌≡◌, OnOk, option_map};
ghost use Rattle.std.specs.Option.{option_copied};
ghost use Rattle.jz_meaning.specs.Attempts.{ChangesSilently};
ghost use Rattle.jz_meaning.specs.States as states;
ghost use Rattle.jz_meaning.specs.Stores.{store_of};
ghost use Rattle.jz_meaning.specs.Statements as statements;
ghost use Rattle.jz_meaning.specs.Values.{cell_key, ref_of};
ghost use Rattle.jz_run_assign.specs.InnerCalls.{array_passed, array_back};

use jz_meaning::{Kind, Store, Stuck, kind_of, missing};
use jz_tree::{Expr, Failure, Span, Var};
use std::alloc::AllocError;

fn copy_cell(
    cell: u64,
    to: &Var,
    from: &Var,
    source: &Store,
    store: &mut Store,
) -> Result<(), AllocError>
    ensures { OnOk result (store_of store.new ≡ states.put (store_of store.old)
        (cell_key (ref_of to.now) cell) (store_of source.now (cell_key (ref_of from.now) cell))) }
{
    let value = source.get(&from.name, from.copy, Some(cell));
    store.put(&to.name, to.copy, Some(cell), value)
}

/// The first cells. No memory has room for more of them than a u64 can count.
fn copy_cells(
    cells: u128,
    to: &Var,
    from: &Var,
    source: &Store,
    store: &mut Store,
) -> Result<(), AllocError>
    ensures { OnOk result (store_of store.new ≡ statements.copied cells (ref_of to.now)
        (ref_of from.now) (store_of source.now) (store_of store.old)) }
{
    if cells > u64::MAX as u128 {
        return Err(AllocError);
    }
    for cell in 0..cells as u64 {
        copy_cell(cell, to, from, source, store)?;
    }
    Ok(())
}

/// The variable that an argument is.
fn variable_of(arg: &Expr) -> Option<&Var>
    ensures { option_map ref_of (option_copied result) ≡ statements.array_of arg.now }
{
    match arg {
        Expr::Num(_, _) => None,
        Expr::Bool(_, _) => None,
        Expr::Var(var) => Some(var),
        Expr::Cell(_, _) => None,
        Expr::Load(_) => None,
        Expr::Neg(_, _) => None,
        Expr::Not(_, _) => None,
        Expr::Cast { .. } => None,
        Expr::Bin(_, _, _, _) => None,
    }
}

/// An array that is passed: the first cells of the parameter are those of the variable that the
/// argument is. Stuck for Init where it is none.
pub(crate) fn pass_array(
    span: Span,
    cells: u128,
    param: &Var,
    arg: &Expr,
    outer: &Store,
    inner: &mut Store,
) -> Result<(), Failure<Stuck>>
    ensures { ChangesSilently result (store_of inner.new)
        (array_passed span cells param.now arg.now (store_of outer.now) (store_of inner.old)) }
{
    match variable_of(arg) {
        None => Err(Failure::Refused(missing(span))),
        Some(var) => {
            copy_cells(cells, param, var, outer, inner)?;
            Ok(())
        }
    }
}

/// The end of a call for one parameter: where it is an array, the cells of the variable that the
/// argument is are those of the parameter.
pub(crate) fn give_array_back(
    param: &Var,
    arg: &Expr,
    inner: &Store,
    outer: &mut Store,
) -> Result<(), AllocError>
    ensures { OnOk result (store_of outer.new ≡ array_back param.now arg.now (store_of inner.now)
        (store_of outer.old)) }
{
    match kind_of(param) {
        Kind::Array(_, cells) => match variable_of(arg) {
            None => Ok(()),
            Some(var) => copy_cells(cells, var, param, inner, outer),
        },
        Kind::Undeclared => Ok(()),
        Kind::Int => Ok(()),
        Kind::Bool => Ok(()),
        Kind::Word(_) => Ok(()),
    }
}
