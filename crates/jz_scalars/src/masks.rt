//! Which of the numbers that an expression leaks are left, by a loop down its left side.

ghost use Rattle.std.specs.Prelude.{◌≡◌, ◌++◌, ◌∷◌, [], true, false, IfOk, OnOk, option_map};
ghost use Rattle.jz_meaning.specs.Assignments.{as_expr};
ghost use Rattle.jz_inline.specs.InnerWidths.{count_of_operation};
ghost use Rattle.jz_arrays.specs.Cells.{all_kept, mask_of};
ghost use Rattle.jz_scalars.specs.Scalars.{declared_sort};
ghost use Rattle.jz_scalars.specs.InnerMasks.{masked_of, masked_cell_of, masked_access, masked_operation, masked_left};

use crate::cells::register_cell;
use jz_inline::is_int;
use jz_meaning::gives_word;
use jz_tree::{BinOp, Expr, Lval, Seq, Var, divides};
use std::alloc::{AllocError, Global};

/// Whether an expression is a whole number that is known when the text is compiled, and which of
/// its numbers are left.
#[derive(Drop)]
pub(crate) struct Masked {
    pub whole: bool,
    pub mask: Seq<bool>,
}

/// An operation with its right operand.
#[derive(Drop)]
pub(crate) struct Operand {
    pub op: BinOp,
    pub right: Masked,
}

/// The left side of an expression: its operations from the outermost, and the operand where it
/// ends.
#[derive(Drop)]
struct Side {
    operands: Vec<Operand>,
    first: Masked,
}

/// The three numbers that a division shows, which are left.
pub(crate) fn push_three(mask: &mut Seq<bool>) -> Result<(), AllocError>
    ensures { OnOk result (mask.new ≡ mask.old ++ all_kept 3) }
{
    mask.push(true)?;
    mask.push(true)?;
    mask.push(true)?;
    Ok(())
}

/// The numbers of its own that an operation shows: a division does, but not of whole numbers.
fn push_own(op: BinOp, whole: bool, mask: &mut Seq<bool>) -> Result<(), AllocError>
    ensures { OnOk result (mask.new ≡ mask.old ++ all_kept (count_of_operation op whole)) }
{
    if !divides(op) {
        return Ok(());
    }
    if whole {
        return Ok(());
    }
    push_three(mask)?;
    Ok(())
}

/// An operation on two operands.
fn operation(op: BinOp, left: Masked, right: Masked) -> Result<Masked, AllocError>
    ensures { IfOk result (λ made. made ≡ masked_operation op left right) }
{
    let Masked {
        whole: first,
        mut mask,
    } = left;
    let Masked {
        whole: second,
        mask: more,
    } = right;
    let both = first && second;
    mask.append(more)?;
    push_own(op, both, &mut mask)?;
    Ok(Masked {
        whole: gives_word(op) && both,
        mask,
    })
}

/// An expression that leaks no number.
fn silent(alloc: Global, whole: bool) -> Masked
    ensures { result ≡ record { whole = whole; mask = [] } }
{
    Masked {
        whole,
        mask: Seq::new(alloc),
    }
}

#[tactic(auto, using(crate::proofs::MaskLemmas::last_operand))]
fn joined(side: Side) -> Result<Masked, AllocError>
    ensures { IfOk result (λ made. made ≡ masked_left side.operands.items side.first) }
{
    let Side {
        mut operands,
        mut first,
    } = side;
    while let Some(Operand { op, right }) = operands.pop() {
        first = operation(op, first, right)?;
    }
    Ok(first)
}

/// An expression with its mask.
#[cycle(mask)]
pub(crate) fn with_mask(alloc: Global, expr: &Expr) -> Result<Masked, AllocError>
    ensures { IfOk result (λ made. made ≡ masked_of expr.now) }
{
    let side = masked_side(alloc, expr)?;
    let made = joined(side)?;
    Ok(made)
}

#[cycle(mask)]
fn masked_side(alloc: Global, expr: &Expr) -> Result<Side, AllocError>
    ensures { let whole = masked_of expr.now in
        IfOk result (λ side. masked_left side.operands.items side.first ≡ whole) }
{
    let mut operands = Vec::new(alloc);
    let mut rest = expr;
    while let Expr::Bin(op, left, right, _) = rest {
        operands.push(Operand {
            op: *op,
            right: with_mask(alloc, right.get())?,
        })?;
        rest = left.get();
    }
    let first = masked_single(alloc, rest)?;
    Ok(Side { operands, first })
}

/// An access at this place, whose number is left.
#[cycle(mask)]
fn masked_at(alloc: Global, whole: bool, at: &Expr) -> Result<Masked, AllocError>
    ensures { IfOk result (λ made. made ≡ masked_access whole at.now) }
{
    let place = with_mask(alloc, at)?;
    let Masked { whole: _, mut mask } = place;
    mask.push(true)?;
    Ok(Masked { whole, mask })
}

/// The index of a cell that becomes a scalar.
fn dropped(alloc: Global) -> Result<Seq<bool>, AllocError>
    ensures { IfOk result (λ mask. mask ≡ false ∷ []) }
{
    let mut mask = Seq::new(alloc);
    mask.push(false)?;
    Ok(mask)
}

/// The cell of an array at a place that has this mask: where it becomes a scalar its index is
/// dropped.
fn masked_cell(alloc: Global, array: &Var, at: &Expr, place: Masked) -> Result<Masked, AllocError>
    ensures { IfOk result (λ made. made ≡ masked_cell_of array.now at.now place) }
{
    let whole = is_int(array);
    match register_cell(array, at) {
        Some(_) => {
            let mask = dropped(alloc)?;
            Ok(Masked { whole, mask })
        }
        None => {
            let Masked { whole: _, mut mask } = place;
            mask.push(true)?;
            Ok(Masked { whole, mask })
        }
    }
}

#[cycle(mask)]
fn masked_single(alloc: Global, expr: &Expr) -> Result<Masked, AllocError>
    ensures { IfOk result (λ made. made ≡ masked_of expr.now) }
{
    match expr {
        Expr::Num(_, _) => Ok(silent(alloc, true)),
        Expr::Bool(_, _) => Ok(silent(alloc, false)),
        Expr::Var(var) => Ok(silent(alloc, is_int(var))),
        Expr::Cell(array, at) => {
            let place = with_mask(alloc, at.get())?;
            let cell = masked_cell(alloc, array, at.get(), place)?;
            Ok(cell)
        }
        Expr::Load(access) => {
            let loaded = masked_at(alloc, false, access.at.get())?;
            Ok(loaded)
        }
        Expr::Neg(e, _) => {
            let inner = with_mask(alloc, e.get())?;
            Ok(inner)
        }
        Expr::Not(e, _) => {
            let inner = with_mask(alloc, e.get())?;
            Ok(inner)
        }
        Expr::Cast { e, .. } => {
            let inner = with_mask(alloc, e.get())?;
            let Masked { whole: _, mask } = inner;
            Ok(Masked { whole: false, mask })
        }
        Expr::Bin(op, left, right, _) => {
            let first = with_mask(alloc, left.get())?;
            let second = with_mask(alloc, right.get())?;
            let made = operation(*op, first, second)?;
            Ok(made)
        }
    }
}

/// A left side where it is read.
pub(crate) fn masked_to(alloc: Global, to: &Lval) -> Result<Option<Masked>, AllocError>
    ensures { IfOk result (λ made. made ≡ option_map masked_of (as_expr to.now)) }
{
    match to {
        Lval::Skip(_) => Ok(None),
        Lval::Var(var) => Ok(Some(silent(alloc, is_int(var)))),
        Lval::Cell(array, at) => {
            let place = with_mask(alloc, at.get())?;
            let cell = masked_cell(alloc, array, at.get(), place)?;
            Ok(Some(cell))
        }
        Lval::Store(access) => {
            let stored = masked_at(alloc, false, access.at.get())?;
            Ok(Some(stored))
        }
    }
}

/// The mask of what an operation makes of a left side and a value.
pub(crate) fn updated_mask(op: BinOp, left: Masked, value: Masked) -> Result<Seq<bool>, AllocError>
    ensures { IfOk result (λ mask. mask ≡ (masked_operation op left value).mask) }
{
    let made = operation(op, left, value)?;
    let Masked { whole: _, mask } = made;
    Ok(mask)
}

/// An expression's mask behind others.
pub(crate) fn push_mask(alloc: Global, expr: &Expr, out: &mut Seq<bool>) -> Result<(), AllocError>
    ensures { OnOk result (out.new ≡ out.old ++ mask_of declared_sort expr.now) }
{
    let made = with_mask(alloc, expr)?;
    let Masked { whole: _, mask } = made;
    out.append(mask)?;
    Ok(())
}
