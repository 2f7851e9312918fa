//! The inline variables that have to be set before they are read.

ghost use Rattle.std.specs.Prelude.{◌≡◌, IfOk, map, filter, not};
ghost use Rattle.jz_type_names.specs.Order.{IsEarliest};
ghost use Rattle.jz_type_names.specs.Scopes.{text_of, text_of_param};
ghost use Rattle.jz_type_storage.specs.Paths.{inline_vars, has_to_be_set, IsReadUnset};
ghost use Rattle.jz_type_storage.specs.InnerWalks.{members};

use crate::sets::{add_all, has};
use crate::walk::walk_all;
use indexmap::IndexSet;
use jz_tree::{Fun, Param, Span, Text, Var};
use jz_type_names::{is_inline_int, known};
use std::alloc::{AllocError, Global};

fn inline_names(alloc: Global, vars: &[Var]) -> Result<Vec<Text>, AllocError>
    ensures { IfOk result (λ ns. ns.items ≡ map text_of (inline_vars vars.now)) }
{
    let mut names = Vec::new(alloc);
    for var in vars {
        if is_inline_int(known(var)) {
            names.push(var.name.clone()?)?;
        }
    }
    Ok(names)
}

fn param_names(alloc: Global, params: &[Param]) -> Result<Vec<Text>, AllocError>
    ensures { IfOk result (λ ns. ns.items ≡ map text_of_param params.now) }
{
    let mut names = Vec::new(alloc);
    for param in params {
        names.push(param.var.name.clone()?)?;
    }
    Ok(names)
}

/// The names that are not in the set.
fn apart(alloc: Global, names: &[Text], set: &IndexSet<Text>) -> Result<Vec<Text>, AllocError>
    ensures { IfOk result (λ ns. ns.items ≡ filter (λ n. not (members set.now.keys n)) names.now) }
{
    let mut kept = Vec::new(alloc);
    for name in names {
        if !has(set, name) {
            kept.push(name.clone()?)?;
        }
    }
    Ok(kept)
}

fn set_of(alloc: Global, names: &[Text]) -> Result<IndexSet<Text>, AllocError>
    ensures { IfOk result (λ s. members s.keys ≡ members names.now) }
{
    let mut set = IndexSet::new(alloc);
    add_all(&mut set, names)?;
    Ok(set)
}

/// The names of a function's inline variables that are no parameters.
fn asked(alloc: Global, fun: &Fun) -> Result<IndexSet<Text>, AllocError>
    ensures { IfOk result (λ s. members s.keys ≡ has_to_be_set fun.now) }
{
    let listed = param_names(alloc, fun.params.as_slice())?;
    let params = set_of(alloc, listed.as_slice())?;
    let names = inline_names(alloc, fun.vars.as_slice())?;
    let own = apart(alloc, names.as_slice(), &params)?;
    let all = set_of(alloc, own.as_slice())?;
    Ok(all)
}

/// The earliest place at which a function reads an inline variable to which some path leads that
/// does not set it.
pub fn read_unset(alloc: Global, fun: &Fun) -> Result<Option<Span>, AllocError>
    ensures { IfOk result (λ at. IsEarliest (IsReadUnset fun.now) at) }
{
    let asked = asked(alloc, fun)?;
    let mut set = IndexSet::new(alloc);
    let first = walk_all(alloc, &asked, &mut set, &fun.body)?;
    Ok(first)
}
