//! The regions that preconditions declare.

ghost use Rattle.std.specs.Prelude.{◌≡◌, ◌++◌, flat_map, IfOk, OnOk};
ghost use Rattle.jz_type_names.specs.Scopes.{variable_named};
ghost use Rattle.jz_given.specs.Giving as giving;

use jz_annotations::Pre;
use jz_fact_sets::Region;
use jz_tree::{Param, Seq, Text, Var};
use std::alloc::{AllocError, Global};

/// The first parameter of that name.
fn named(alloc: Global, params: &Seq<Param>, name: &Text) -> Result<Option<Var>, AllocError>
    ensures { IfOk result
        (λ found. found ≡ variable_named name.now (giving.variables params.now)) }
{
    for param in params.as_slice() {
        if name.as_str() == param.var.name.as_str() {
            let var = param.var.copy(alloc)?;
            return Ok(Some(var));
        }
    }
    Ok(None)
}

fn named_if(
    alloc: Global,
    params: &Seq<Param>,
    name: &Option<Text>,
) -> Result<Option<Var>, AllocError>
    ensures { IfOk result
        (λ found. found ≡ giving.named_if name.now (giving.variables params.now)) }
{
    match name {
        None => Ok(None),
        Some(name) => {
            let found = named(alloc, params, name)?;
            Ok(found)
        }
    }
}

fn add_region(
    alloc: Global,
    out: &mut Vec<Region>,
    params: &Seq<Param>,
    pre: &Pre,
) -> Result<(), AllocError>
    ensures { OnOk result (out.new.items
        ≡ out.old.items ++ giving.region_of (giving.variables params.now) pre.now) }
{
    match pre {
        Pre::Region {
            pointer,
            factor,
            variable,
            constant,
        } => {
            let of = named(alloc, params, pointer)?;
            match of {
                None => Ok(()),
                Some(of) => {
                    let by = named_if(alloc, params, variable)?;
                    out.push(Region {
                        of,
                        times: *factor,
                        by,
                        plus: *constant,
                    })?;
                    Ok(())
                }
            }
        }
        Pre::Range {
            name: _,
            low: _,
            high: _,
        } => Ok(()),
        Pre::Align {
            pointer: _,
            multiple: _,
        } => Ok(()),
    }
}

pub(crate) fn regions(
    alloc: Global,
    params: &Seq<Param>,
    pres: &Seq<Pre>,
) -> Result<Seq<Region>, AllocError>
    ensures { IfOk result
        (λ made. made ≡ flat_map (giving.region_of (giving.variables params.now)) pres.now) }
{
    let mut list = Vec::new(alloc);
    for pre in pres.as_slice() {
        add_region(alloc, &mut list, params, pre)?;
    }
    Ok(Seq::from_vec(list))
}
