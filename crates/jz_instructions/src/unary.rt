//! Rows of one operand.

ghost use Rattle.jz_one_flag_row.specs.Forms.{IsOne, IsSwap};
ghost use Rattle.jz_instructions.specs.TableHomes.{homes_of};
ghost use Rattle.jz_pinned_rows.specs.Rows.{FindsActs};

use crate::binary::behind;
use jz_operations::{Action, Arg};
use jz_pinned_rows::{Acts, is_long};
use jz_rows::{NOTHING, Target, bring};
use jz_tree::Expr;
use x64_insn::One;

/// NEG, NOT, INC and DEC.
pub(crate) fn one_row(target: &Target<'_>, kind: One, operand: &Expr) -> Option<Acts>
    ensures { let home = homes_of target.now.homes.now in
        FindsActs (IsOne home target.now.size kind target.now.to.now operand.now) result }
{
    let x = target.operand(operand)?;
    let to = target.destination()?;
    let brought = bring(false, target.size, to.arg, x, NOTHING)?;
    Some(behind(brought, Action::One(kind, target.size, to.arg)))
}

/// BSWAP.
pub(crate) fn swap_row(target: &Target<'_>, operand: &Expr) -> Option<Acts>
    ensures { let home = homes_of target.now.homes.now in
        FindsActs (IsSwap home target.now.size target.now.to.now operand.now) result }
{
    if !is_long(target.size) {
        return None;
    }
    let x = target.operand(operand)?;
    let register = target.register()?;
    let brought = bring(false, target.size, Arg::Var(register), x, NOTHING)?;
    Some(behind(brought, Action::Bswap(target.size, register)))
}
