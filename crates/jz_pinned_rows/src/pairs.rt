//! Assignments to two left sides.

ghost use Rattle.jz_pinned_rows.specs.TableHomes.{homes_of};
ghost use Rattle.std.specs.Prelude.{◌≡◌};
ghost use Rattle.jz_rows.specs.Rows as rows;
ghost use Rattle.jz_rows.specs.Rows.{acts_of};
ghost use Rattle.jz_pinned_rows.specs.Rows.{actions_of, items_of, FindsRow};
ghost use Rattle.jz_pinned_rows.specs.InnerRows.{HasCarry, HasPair};

use crate::multiplying::product_row;
use crate::results::{carry_flag, flag_result, without_flags};
use crate::row::{Acts, PinnedRow};
use jz_operands::Homes;
use jz_rows::{Row, Target, assignment_row};
use jz_tree::{BinOp, Expr, Lval, Size};

/// The actions of a row of the other table.
pub fn acts_in(row: Row) -> Acts
    ensures actions { actions_of result ≡ acts_of row }
    ensures items { items_of result ≡ rows.items_of row }
{
    Acts {
        before: row.before,
        between: None,
        last: row.last,
        divided: None,
    }
}

/// The row of `flag, to = value`, whose carry the flag becomes.
fn carried_row(homes: &Homes, size: Size, flag: &Lval, to: &Lval, value: &Expr) -> Option<PinnedRow>
    ensures { let home = homes_of homes.now in
        FindsRow (HasCarry home size flag.now to.now value.now) result }
{
    let carry = flag_result(homes, flag)?;
    let row = assignment_row(&Target { homes, size, to }, value)?;
    Some(PinnedRow {
        acts: acts_in(row),
        flags: carry_flag(carry),
    })
}

/// The row of an assignment of this right side to two left sides: a sum or a difference behind its
/// carry, or a product of two words.
pub(crate) fn pair_row(
    homes: &Homes,
    size: Size,
    first: &Lval,
    second: &Lval,
    value: &Expr,
) -> Option<PinnedRow>
    ensures { let home = homes_of homes.now in
        FindsRow (HasPair home size first.now second.now value.now) result }
{
    match value {
        Expr::Bin(op, a, b, _) => match op {
            BinOp::Mul => without_flags(product_row(homes, size, first, second, a.get(), b.get())),
            BinOp::Add => carried_row(homes, size, first, second, value),
            BinOp::Sub => carried_row(homes, size, first, second, value),
            _ => None,
        },
        _ => None,
    }
}
