//! The parameters of a function with what preconditions state of them.

ghost use Rattle.std.specs.Prelude.{◌≡◌, map, IfOk};
ghost use Rattle.jz_given.specs.Giving as giving;

use crate::stating::{multiple_of, range_of};
use jz_annotations::Pre;
use jz_fact_sets::Parameter;
use jz_meaning::{Kind, kind_of};
use jz_tree::{Param, Seq};
use std::alloc::{AllocError, Global};
use x64_insn::Size;

fn size_of(kind: Kind) -> Size
    ensures { result ≡ giving.size_of kind }
{
    match kind {
        Kind::Word(size) => size,
        _ => Size::S64,
    }
}

fn parameter(alloc: Global, pres: &Seq<Pre>, param: &Param) -> Result<Parameter, AllocError>
    ensures { IfOk result (λ made. made ≡ giving.param_of pres.now param.now) }
{
    let var = param.var.copy(alloc)?;
    let size = size_of(kind_of(&param.var));
    let range = range_of(pres, &param.var.name);
    let align = multiple_of(pres, &param.var.name);
    Ok(Parameter {
        var,
        size,
        range,
        align,
    })
}

pub(crate) fn parameters(
    alloc: Global,
    params: &Seq<Param>,
    pres: &Seq<Pre>,
) -> Result<Seq<Parameter>, AllocError>
    ensures { IfOk result (λ made. made ≡ map (giving.param_of pres.now) params.now) }
{
    let mut list = Vec::new(alloc);
    for param in params.as_slice() {
        list.push(parameter(alloc, pres, param)?)?;
    }
    Ok(Seq::from_vec(list))
}
