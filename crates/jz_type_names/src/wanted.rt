//! The names that have to be those of variables, as no constant can stand there.

ghost use Rattle.std.specs.Prelude.{◌≡◌, IfOk, OnOk, map};
ghost use Rattle.jz_type_names.specs.Scopes.{name_of};
ghost use Rattle.jz_type_names.specs.Parts.{layer_of, arrays_in, arrays_read_by};
ghost use Rattle.jz_type_names.specs.Lent.{this, var_names};
ghost use Rattle.jz_type_names.specs.InnerLists.{GainsVars};
ghost use Rattle.jz_type_names.specs.InnerTables.{passed_by, wanted_by};
ghost use Rattle.jz_type_names.specs.Names.{array_passed, arrays_beside, decl_arrays, length_arrays, variables_outside};

use crate::declarations::decls_of;
use crate::exprs::{add, cells, length_of};
use crate::kinds::{is_array, known};
use crate::layers::{add_refs, exprs_of, set_by};
use crate::tables::Functions;
use jz_tree::{Decl, Expr, Fun, Param, Rhs, Stmt, StmtKind, Var};
use std::alloc::{AllocError, Global};

/// Adds the arrays of which cells stand in an expression.
fn add_arrays<'a>(alloc: Global, list: &mut Vec<&'a Var>, expr: &'a Expr) -> Result<(), AllocError>
    ensures { OnOk result (GainsVars list.old.items list.new.items (arrays_in expr.now)) }
{
    for cell in cells(alloc, expr)? {
        list.push(cell.0)?;
    }
    Ok(())
}

/// The arrays of which a statement reads cells.
fn arrays_read_by(alloc: Global, stmt: &Stmt) -> Result<Vec<&Var>, AllocError>
    ensures { IfOk result (λ vs. var_names vs.items ≡ arrays_read_by (layer_of stmt.now)) }
{
    let mut list = Vec::new(alloc);
    for expr in exprs_of(alloc, stmt)? {
        add_arrays(alloc, &mut list, expr)?;
    }
    Ok(list)
}

/// The name that an argument is as a whole, where the parameter is an array.
fn array_passed<'a>(param: &Param, arg: &'a Expr) -> Option<&'a Var>
    ensures { map name_of (this result) ≡ array_passed param.now arg.now }
{
    if !is_array(known(&param.var)) {
        return None;
    }
    match arg {
        Expr::Var(var) => Some(var),
        _ => None,
    }
}

fn add_beside<'a>(
    list: &mut Vec<&'a Var>,
    params: &[Param],
    args: &'a [Expr],
) -> Result<(), AllocError>
    ensures { OnOk result
        (GainsVars list.old.items list.new.items (arrays_beside params.now args.now)) }
{
    let mut rest = params;
    for arg in args {
        match rest {
            [] => return Ok(()),
            [param, more @ ..] => {
                add(list, array_passed(param, arg))?;
                rest = more;
            }
        }
    }
    Ok(())
}

/// Adds the names that a statement passes to a function in the places of arrays.
fn add_passed<'a>(
    list: &mut Vec<&'a Var>,
    functions: &Functions<'_>,
    stmt: &'a Stmt,
) -> Result<(), AllocError>
    ensures { OnOk result
        (GainsVars list.old.items list.new.items (passed_by functions.now stmt.now)) }
{
    match &stmt.kind {
        StmtKind::Assign {
            to: _,
            op: _,
            rhs: Rhs::Call(name, args, _),
            cond: _,
        } => match functions.named(name) {
            None => Ok(()),
            Some(fun) => {
                add_beside(list, fun.params.as_slice(), args.as_slice())?;
                Ok(())
            }
        },
        _ => Ok(()),
    }
}

/// The names of a statement that have to be variables.
pub(crate) fn variables_wanted<'a>(
    alloc: Global,
    functions: &Functions<'_>,
    stmt: &'a Stmt,
) -> Result<Vec<&'a Var>, AllocError>
    ensures { IfOk result (λ vs. var_names vs.items ≡ wanted_by functions.now stmt.now) }
{
    let mut list = set_by(alloc, stmt)?;
    for array in arrays_read_by(alloc, stmt)? {
        list.push(array)?;
    }
    add_passed(&mut list, functions, stmt)?;
    Ok(list)
}

fn add_decl_arrays<'a>(
    alloc: Global,
    list: &mut Vec<&'a Var>,
    decl: &'a Decl,
) -> Result<(), AllocError>
    ensures { OnOk result (GainsVars list.old.items list.new.items (decl_arrays decl.now)) }
{
    match length_of(decl) {
        None => Ok(()),
        Some(length) => {
            add_arrays(alloc, list, length)?;
            Ok(())
        }
    }
}

/// The names before an index in the lengths of what a function declares.
fn length_arrays(alloc: Global, fun: &Fun) -> Result<Vec<&Var>, AllocError>
    ensures { IfOk result (λ vs. var_names vs.items ≡ length_arrays fun.now) }
{
    let mut list = Vec::new(alloc);
    for decl in decls_of(alloc, fun)? {
        add_decl_arrays(alloc, &mut list, decl)?;
    }
    Ok(list)
}

/// The names outside the statements of a function that have to be variables.
pub(crate) fn variables_outside(alloc: Global, fun: &Fun) -> Result<Vec<&Var>, AllocError>
    ensures { IfOk result (λ vs. var_names vs.items ≡ variables_outside fun.now) }
{
    let mut list = length_arrays(alloc, fun)?;
    add_refs(&mut list, &fun.result)?;
    Ok(list)
}

/// The arrays of which cells stand in an expression.
pub(crate) fn arrays(alloc: Global, expr: &Expr) -> Result<Vec<&Var>, AllocError>
    ensures { IfOk result (λ vs. var_names vs.items ≡ arrays_in expr.now) }
{
    let mut list = Vec::new(alloc);
    add_arrays(alloc, &mut list, expr)?;
    Ok(list)
}
