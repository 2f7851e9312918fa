//! The row of an assignment.

ghost use Rattle.std.specs.Prelude.{IfOk, None, Some};
ghost use Rattle.jz_pinned_rows.specs.TableHomes.{homes_of};
ghost use Rattle.jz_pinned_rows.specs.Refusals.{FindsOr};
ghost use Rattle.jz_pinned_rows.specs.Rows.{FindsRow, IsPinnedRow, NeverPinned};
ghost use Rattle.jz_pinned_rows.specs.InnerRows.{HasPinned, IsPinnedSet, NeverPinnedSet};

use crate::choosing::chosen_row;
use crate::dividing::quotient_row;
use crate::pairs::pair_row;
use crate::parts::can_encode_all;
use crate::results::without_flags;
use crate::row::PinnedRow;
use jz_meaning::own_size;
use jz_operands::Homes;
use jz_run_assign::{left_sizes, whole_of};
use jz_tree::{BinOp, Expr, Lval, Seq, Size};
use std::alloc::{AllocError, Global};

/// The row of an assignment of this right side, at this size.
fn sized_row(homes: &Homes, size: Size, to: &[Lval], value: &Expr) -> Option<PinnedRow>
    ensures { let home = homes_of homes.now in
        FindsRow (HasPinned home size to.now value.now) result }
{
    match to {
        [left] => without_flags(quotient_row(homes, size, left, value)),
        [first, second] => pair_row(homes, size, first, second, value),
        _ => None,
    }
}

/// The row of an assignment of this right side whose actions can be encoded.
fn set_row(homes: &Homes, left: Option<Size>, to: &[Lval], value: &Expr) -> Option<PinnedRow>
    ensures { let home = homes_of homes.now in
        FindsOr result (IsPinnedSet home left to.now value.now)
        (NeverPinnedSet home left to.now value.now) }
{
    let size = left.or(own_size(value))?;
    let row = sized_row(homes, size, to, value)?;
    if can_encode_all(row.acts) {
        Some(row)
    } else {
        None
    }
}

/// The row of `to = value` or of `to op= value`, whose first operand is the last left side.
fn plain_row(
    alloc: Global,
    homes: &Homes,
    to: &Seq<Lval>,
    op: Option<BinOp>,
    value: &Expr,
) -> Result<Option<PinnedRow>, AllocError>
    ensures { let home = homes_of homes.now in
        IfOk result (λ found. FindsOr found (IsPinnedRow home to.now op value.now None)
        (NeverPinned home to.now op value.now None)) }
{
    let left = left_sizes(to);
    match op {
        None => Ok(set_row(homes, left, to.as_slice(), value)),
        Some(op) => {
            let right = whole_of(alloc, to, op, value)?;
            match right {
                None => Ok(None),
                Some(right) => Ok(set_row(homes, left, to.as_slice(), &right)),
            }
        }
    }
}

/// The row of `to = value if cond`.
fn conditional_row(
    homes: &Homes,
    to: &[Lval],
    op: Option<BinOp>,
    value: &Expr,
    cond: &Expr,
) -> Option<PinnedRow>
    ensures { let home = homes_of homes.now in
        FindsOr result (IsPinnedRow home to.now op value.now (Some cond.now))
        (NeverPinned home to.now op value.now (Some cond.now)) }
{
    match op {
        None => match to {
            [left] => chosen_row(homes, left, value, cond),
            _ => None,
        },
        Some(_) => None,
    }
}

/// The row of `to = value` or of `to op= value`, or of one with a condition, in the table of flags,
/// RAX and RDX; nothing where that has none.
pub fn pinned_row_of(
    alloc: Global,
    homes: &Homes,
    to: &Seq<Lval>,
    op: Option<BinOp>,
    value: &Expr,
    cond: &Option<Expr>,
) -> Result<Option<PinnedRow>, AllocError>
    ensures { let home = homes_of homes.now in
        IfOk result (λ found. FindsOr found (IsPinnedRow home to.now op value.now cond.now)
        (NeverPinned home to.now op value.now cond.now)) }
{
    match cond {
        None => plain_row(alloc, homes, to, op, value),
        Some(cond) => Ok(conditional_row(homes, to.as_slice(), op, value, cond)),
    }
}
