//! The numbers of a statement that are left.

ghost use Rattle.std.specs.Prelude.{◌≡◌, ◌+◌, ◌++◌, ◌∷◌, [], drop, Some, IfOk, OnOk};
ghost use Rattle.jz_tree.specs.Spellings as spellings;
ghost use Rattle.jz_meaning.specs.Assignments.{as_expr, last_left, whole_of};
ghost use Rattle.jz_arrays.specs.Cells as cells;
ghost use Rattle.jz_arrays.specs.Arrays as arrays;
ghost use Rattle.jz_scalars.specs.Scalars.{declared_sort, right_mask};
ghost use Rattle.jz_scalars.specs.InnerMasks as masks;

use crate::masks::{Masked, masked_to, push_mask, push_three, updated_mask, with_mask};
use jz_change::{Number, Numbers};
use jz_tree::{BinOp, Expr, Instance, Intrinsic, Lval, Rhs, Seq, spelled};
use std::alloc::{AllocError, Global};

/// The number at a place, where it is left.
fn push_number(place: usize, left: bool, out: &mut Seq<Number>) -> Result<(), AllocError>
    ensures { OnOk result (out.new ≡ out.old ++ arrays.places place (left ∷ [])) }
{
    if left {
        out.push(Number::Nth(place as u64))?;
    }
    Ok(())
}

/// With it and the places behind it there is what was there with those from it on.
fn push_place(mask: &Seq<bool>, place: usize, out: &mut Seq<Number>) -> Result<(), AllocError>
    ensures { let behind = arrays.places (place + 1) (drop (place + 1) mask.now) in
        let from = arrays.places place (drop place mask.now) in
        OnOk result (out.new ++ behind ≡ out.old ++ from) }
{
    match mask.get(place) {
        None => Ok(()),
        Some(left) => {
            push_number(place, *left, out)?;
            Ok(())
        }
    }
}

/// The places of the numbers that are left.
fn numbers_left(alloc: Global, mask: &Seq<bool>) -> Result<Numbers, AllocError>
    ensures { IfOk result (λ numbers. numbers ≡ arrays.numbers_left mask.now) }
{
    let mut numbers = Seq::new(alloc);
    for place in 0..mask.len() {
        push_place(mask, place, &mut numbers)?;
    }
    Ok(Numbers::These(numbers))
}

// ---- left sides

/// What a left side leaks where it is read.
fn push_read(alloc: Global, to: &Lval, out: &mut Seq<bool>) -> Result<(), AllocError>
    ensures { let mask = cells.mask_if declared_sort (as_expr to.now) in
        OnOk result (out.new ≡ out.old ++ mask) }
{
    let read = masked_to(alloc, to)?;
    match read {
        None => Ok(()),
        Some(read) => {
            let Masked { whole: _, mask } = read;
            out.append(mask)?;
            Ok(())
        }
    }
}

/// What it leaks where it is written is the same.
fn push_left(alloc: Global, to: &Lval, out: &mut Seq<bool>) -> Result<(), AllocError>
    ensures { OnOk result (out.new ≡ out.old ++ cells.left_mask declared_sort to.now) }
{
    push_read(alloc, to, out)?;
    Ok(())
}

fn push_lefts(alloc: Global, to: &Seq<Lval>, out: &mut Seq<bool>) -> Result<(), AllocError>
    ensures { OnOk result (out.new ≡ out.old ++ cells.lefts_mask declared_sort to.now) }
{
    for left in to.as_slice() {
        push_left(alloc, left, out)?;
    }
    Ok(())
}

/// The old value, where there is one left side.
fn push_old(alloc: Global, to: &Seq<Lval>, out: &mut Seq<bool>) -> Result<(), AllocError>
    ensures { OnOk result (out.new ≡ out.old ++ cells.old_mask declared_sort to.now) }
{
    match to.as_slice() {
        [] => Ok(()),
        [left] => {
            push_read(alloc, left, out)?;
            Ok(())
        }
        [_, _, ..] => Ok(()),
    }
}

fn push_condition(
    alloc: Global,
    to: &Seq<Lval>,
    cond: &Option<Expr>,
    out: &mut Seq<bool>,
) -> Result<(), AllocError>
    ensures { let mask = cells.condition_mask declared_sort to.now cond.now in
        OnOk result (out.new ≡ out.old ++ mask) }
{
    match cond {
        None => Ok(()),
        Some(cond) => {
            push_mask(alloc, cond, out)?;
            push_old(alloc, to, out)?;
            Ok(())
        }
    }
}

// ---- right sides

/// What an operation makes of a left side and a value. `_` is not read.
fn update_mask(alloc: Global, to: &Lval, op: BinOp, value: &Expr) -> Result<Seq<bool>, AllocError>
    ensures { let whole = whole_of (Some to.now) (Some op) value.now in
        IfOk result (λ mask. mask ≡ cells.mask_if declared_sort whole) }
{
    let read = masked_to(alloc, to)?;
    match read {
        None => Ok(Seq::new(alloc)),
        Some(left) => {
            let value = with_mask(alloc, value)?;
            let mask = updated_mask(op, left, value)?;
            Ok(mask)
        }
    }
}

#[tactic(auto, using(jz_run_assign::proofs::LastLeft::last_is))]
fn value_mask(
    alloc: Global,
    to: &Seq<Lval>,
    op: Option<BinOp>,
    value: &Expr,
) -> Result<Seq<bool>, AllocError>
    ensures { let whole = whole_of (last_left to.now) op value.now in
        IfOk result (λ mask. mask ≡ cells.mask_if declared_sort whole) }
{
    match op {
        None => {
            let mut mask = Seq::new(alloc);
            push_mask(alloc, value, &mut mask)?;
            Ok(mask)
        }
        Some(op) => match to.as_slice().last() {
            None => Ok(Seq::new(alloc)),
            Some(left) => {
                let mask = update_mask(alloc, left, op, value)?;
                Ok(mask)
            }
        },
    }
}

fn push_args(alloc: Global, args: &Seq<Expr>, out: &mut Seq<bool>) -> Result<(), AllocError>
    ensures { OnOk result (out.new ≡ out.old ++ cells.args_mask declared_sort args.now) }
{
    for arg in args.as_slice() {
        push_mask(alloc, arg, out)?;
    }
    Ok(())
}

fn is_division(name: Intrinsic) -> bool
    ensures { result ≡ masks.is_division name }
{
    name == Intrinsic::Div
}

/// The numbers of its own that an instruction shows.
fn push_own(instance: Option<Instance>, out: &mut Seq<bool>) -> Result<(), AllocError>
    ensures { OnOk result (out.new ≡ out.old ++ cells.own_mask declared_sort instance) }
{
    match instance {
        None => Ok(()),
        Some(instance) => {
            if is_division(instance.name) {
                push_three(out)?;
            }
            Ok(())
        }
    }
}

fn instruction_mask(
    alloc: Global,
    instance: Option<Instance>,
    to: &Seq<Lval>,
    args: &Seq<Expr>,
) -> Result<Seq<bool>, AllocError>
    ensures { let whole = cells.instruction_mask declared_sort instance to.now args.now in
        IfOk result (λ mask. mask ≡ whole) }
{
    let mut mask = Seq::new(alloc);
    push_args(alloc, args, &mut mask)?;
    push_own(instance, &mut mask)?;
    push_lefts(alloc, to, &mut mask)?;
    Ok(mask)
}

fn assign_mask(
    alloc: Global,
    to: &Seq<Lval>,
    op: Option<BinOp>,
    value: &Expr,
    cond: &Option<Expr>,
) -> Result<Seq<bool>, AllocError>
    ensures { let whole = cells.assign_mask declared_sort to.now op value.now cond.now in
        IfOk result (λ mask. mask ≡ whole) }
{
    let mut mask = value_mask(alloc, to, op, value)?;
    push_condition(alloc, to, cond, &mut mask)?;
    push_lefts(alloc, to, &mut mask)?;
    Ok(mask)
}

// ---- statements

fn statement_mask(
    alloc: Global,
    to: &Seq<Lval>,
    op: Option<BinOp>,
    rhs: &Rhs,
    cond: &Option<Expr>,
) -> Result<Seq<bool>, AllocError>
    ensures { IfOk result (λ mask. mask ≡ right_mask to.now op rhs.now cond.now) }
{
    match rhs {
        Rhs::Value(value) => {
            let mask = assign_mask(alloc, to, op, value, cond)?;
            Ok(mask)
        }
        Rhs::Call(_, args, _) => {
            let mask = instruction_mask(alloc, None, to, args)?;
            Ok(mask)
        }
        Rhs::Intrinsic(name, args, _) => {
            let instance = spelled(name.as_str());
            let mask = instruction_mask(alloc, instance, to, args)?;
            Ok(mask)
        }
    }
}

/// The numbers of an assignment that are left.
pub(crate) fn statement_numbers(
    alloc: Global,
    to: &Seq<Lval>,
    op: Option<BinOp>,
    rhs: &Rhs,
    cond: &Option<Expr>,
) -> Result<Numbers, AllocError>
    ensures { let mask = right_mask to.now op rhs.now cond.now in
        IfOk result (λ numbers. numbers ≡ arrays.numbers_left mask) }
{
    let mask = statement_mask(alloc, to, op, rhs, cond)?;
    let numbers = numbers_left(alloc, &mask)?;
    Ok(numbers)
}

/// The numbers of a test that are left.
pub(crate) fn test_numbers(alloc: Global, cond: &Expr) -> Result<Numbers, AllocError>
    ensures { let mask = cells.mask_of declared_sort cond.now in
        IfOk result (λ numbers. numbers ≡ arrays.numbers_left mask) }
{
    let mut mask = Seq::new(alloc);
    push_mask(alloc, cond, &mut mask)?;
    let numbers = numbers_left(alloc, &mask)?;
    Ok(numbers)
}
