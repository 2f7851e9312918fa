//! What a function declares, and the names in the lengths of its arrays.

ghost use Rattle.std.specs.Prelude.{◌≡◌, IfOk, OnOk, flat_map};
ghost use Rattle.jz_type_names.specs.Scopes.{variables_of};
ghost use Rattle.jz_type_names.specs.Lent.{these, var_names};
ghost use Rattle.jz_type_names.specs.InnerLists.{Gains, GainsVars};
ghost use Rattle.jz_type_names.specs.Names.{var_decl, param_decl, ret_decls, decl_names, decls_of, length_names};

use crate::exprs::length_of;
use crate::layers::{add_names, add_refs};
use jz_tree::{Decl, Fun, Param, Ret, Seq, Var};
use std::alloc::{AllocError, Global};

/// The parameters and variables of a function.
pub(crate) fn variables(alloc: Global, fun: &Fun) -> Result<Vec<&Var>, AllocError>
    ensures { IfOk result (λ vs. these vs.items ≡ variables_of fun.now) }
{
    let mut list = Vec::new(alloc);
    for param in fun.params.as_slice() {
        list.push(&param.var)?;
    }
    add_refs(&mut list, &fun.vars)?;
    Ok(list)
}

fn add_declared<'a>(list: &mut Vec<&'a Decl>, var: &'a Var) -> Result<(), AllocError>
    ensures { OnOk result (Gains list.old.items list.new.items (var_decl var.now)) }
{
    match &var.decl {
        None => Ok(()),
        Some(decl) => {
            list.push(decl)?;
            Ok(())
        }
    }
}

fn add_params<'a>(list: &mut Vec<&'a Decl>, params: &'a Seq<Param>) -> Result<(), AllocError>
    ensures { OnOk result (Gains list.old.items list.new.items (flat_map param_decl params.now)) }
{
    for param in params.as_slice() {
        add_declared(list, &param.var)?;
    }
    Ok(())
}

fn add_rets<'a>(list: &mut Vec<&'a Decl>, rets: &'a Seq<Ret>) -> Result<(), AllocError>
    ensures { OnOk result (Gains list.old.items list.new.items (ret_decls rets.now)) }
{
    for ret in rets.as_slice() {
        list.push(&ret.decl)?;
    }
    Ok(())
}

fn add_vars<'a>(list: &mut Vec<&'a Decl>, vars: &'a Seq<Var>) -> Result<(), AllocError>
    ensures { OnOk result (Gains list.old.items list.new.items (flat_map var_decl vars.now)) }
{
    for var in vars.as_slice() {
        add_declared(list, var)?;
    }
    Ok(())
}

/// The declarations of a function: of its parameters, results and variables.
pub fn decls_of(alloc: Global, fun: &Fun) -> Result<Vec<&Decl>, AllocError>
    ensures { IfOk result (λ ds. these ds.items ≡ decls_of fun.now) }
{
    let mut list = Vec::new(alloc);
    add_params(&mut list, &fun.params)?;
    add_rets(&mut list, &fun.rets)?;
    add_vars(&mut list, &fun.vars)?;
    Ok(list)
}

fn add_length_names<'a>(
    alloc: Global,
    list: &mut Vec<&'a Var>,
    decl: &'a Decl,
) -> Result<(), AllocError>
    ensures { OnOk result (GainsVars list.old.items list.new.items (decl_names decl.now)) }
{
    match length_of(decl) {
        None => Ok(()),
        Some(length) => {
            add_names(alloc, list, length)?;
            Ok(())
        }
    }
}

/// The names in the lengths of what a function declares.
pub(crate) fn length_names(alloc: Global, fun: &Fun) -> Result<Vec<&Var>, AllocError>
    ensures { IfOk result (λ vs. var_names vs.items ≡ length_names fun.now) }
{
    let mut list = Vec::new(alloc);
    for decl in decls_of(alloc, fun)? {
        add_length_names(alloc, &mut list, decl)?;
    }
    Ok(list)
}
