//! What the copies of arguments and results leak, of the numbers of the call.

ghost use Rattle.std.specs.Prelude.{◌≡◌, ◌+◌, ◌<◌, ◌^◌, ◌++◌, [], ◌∷◌, length, IfOk, OnOk};
ghost use Rattle.jz_change.specs.declared.change.Numbers.TheVariants.{These};
ghost use Rattle.jz_inline.specs.Calls.{from, argument_items, result_items};
ghost use Rattle.jz_inlining.specs.InnerItems.{argument_item, behind_argument, result_item, behind_result};

use crate::passing::is_copied;
use jz_change::{Number, Numbers};
use jz_inline::{is_array, left_width, width};
use jz_tree::{Expr, Lval, Param, Seq, Var};
use std::alloc::{AllocError, Global};

/// A list in memory is no longer than this.
fn is_short(all: &Vec<Number>)
    ensures { length all.now.items < 2 ^ 63 }
{}

/// So many numbers, from the one on whose place is the length of what is there.
fn push_numbers(all: &mut Vec<Number>, count: u64, out: &mut Seq<Number>) -> Result<(), AllocError>
    ensures all { OnOk result (length all.new.items ≡ length all.old.items + count) }
    ensures out { OnOk result (out.new ≡ out.old ++ from (length all.old.items) count) }
{
    for _ in 0..count {
        let number = Number::Nth(all.len() as u64);
        all.push(number)?;
        out.push(number)?;
    }
    Ok(())
}

/// The numbers of a copy that leaks so many of them, where these are those of the copies before it.
fn next_item(alloc: Global, all: &mut Vec<Number>, count: u64) -> Result<Numbers, AllocError>
    ensures all { OnOk result (length all.new.items ≡ length all.old.items + count) }
    ensures few { OnOk result (count < 2 ^ 63) }
    ensures item { IfOk result (λ item. item ≡ These (from (length all.old.items) count)) }
{
    let mut numbers = Seq::new(alloc);
    push_numbers(all, count, &mut numbers)?;
    is_short(all);
    Ok(Numbers::These(numbers))
}

/// The numbers of the copy of an argument, if there is one.
fn push_argument(
    alloc: Global,
    all: &mut Vec<Number>,
    param: &Param,
    arg: &Expr,
    out: &mut Seq<Numbers>,
) -> Result<(), AllocError>
    ensures items { let item = argument_item (length all.old.items) param.now arg.now in
        OnOk result (out.new ≡ out.old ++ item) }
    ensures all { let behind = behind_argument (length all.old.items) param.now arg.now in
        OnOk result (length all.new.items ≡ behind) }
{
    if is_array(&param.var) {
        return Ok(());
    }
    let count = width(alloc, arg)?;
    let item = next_item(alloc, all, count)?;
    out.push(item)?;
    Ok(())
}

/// The numbers of the copies of arguments.
pub(crate) fn items_of_arguments(
    alloc: Global,
    params: &Seq<Param>,
    args: &Seq<Expr>,
) -> Result<Seq<Numbers>, AllocError>
    ensures { IfOk result (λ items. items ≡ argument_items 0 params.now args.now) }
{
    let mut all = Vec::new(alloc);
    let mut items = Seq::new(alloc);
    for (i, param) in params.as_slice().iter().enumerate() {
        match args.get(i) {
            None => return Ok(items),
            Some(arg) => push_argument(alloc, &mut all, param, arg, &mut items)?,
        }
    }
    Ok(items)
}

/// The numbers of the copy of a result, if there is one.
fn push_result(
    alloc: Global,
    all: &mut Vec<Number>,
    to: &Lval,
    var: &Var,
    out: &mut Seq<Numbers>,
) -> Result<(), AllocError>
    ensures items { let item = result_item (length all.old.items) to.now var.now in
        OnOk result (out.new ≡ out.old ++ item) }
    ensures all { let behind = behind_result (length all.old.items) to.now var.now in
        OnOk result (length all.new.items ≡ behind) }
{
    if !is_copied(to, var) {
        return Ok(());
    }
    let count = left_width(alloc, to)?;
    let item = next_item(alloc, all, count)?;
    out.push(item)?;
    Ok(())
}

/// The numbers of the copies of results.
pub(crate) fn items_of_results(
    alloc: Global,
    to: &Seq<Lval>,
    vars: &Seq<Var>,
) -> Result<Seq<Numbers>, AllocError>
    ensures { IfOk result (λ items. items ≡ result_items 0 to.now vars.now) }
{
    let mut all = Vec::new(alloc);
    let mut items = Seq::new(alloc);
    for (i, left) in to.as_slice().iter().enumerate() {
        match vars.get(i) {
            None => return Ok(items),
            Some(var) => push_result(alloc, &mut all, left, var, &mut items)?,
        }
    }
    Ok(items)
}
