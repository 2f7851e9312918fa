//! Rows of two operands.

ghost use Rattle.std.specs.Prelude.{◌≡◌, ◌∷◌, ◌++◌, [], IsTrue, IsFalse};
ghost use Rattle.jz_tree.specs.declared.expr.Expr.TheVariants as expr;
ghost use Rattle.jz_flag_rows.specs.Instructions.{NotAccess};
ghost use Rattle.jz_one_flag_row.specs.Forms.{IsTwo, IsCarried, IsComparison};
ghost use Rattle.jz_rows.specs.Rows.{actions_in, items_in, item_of};
ghost use Rattle.jz_instructions.specs.TableHomes.{homes_of};
ghost use Rattle.jz_pinned_rows.specs.Rows.{FindsActs, actions_of, items_of};

use jz_operands::Homes;
use jz_operations::{Action, Arg, Pinned};
use jz_pinned_rows::{Acts, operands_of};
use jz_rows::{Act, Brought, Shown, Target, bring, count, flag_in, is_imm, told};
use jz_tree::{Expr, Size, Var};
use x64_insn::Alu;

/// What was brought, and the action behind it.
pub(crate) fn behind(brought: Brought, action: Action) -> Acts
    ensures actions { actions_of result ≡ actions_in brought.before ++ (action ∷ []) }
    ensures items { items_of result
        ≡ items_in brought.before ++ (item_of brought.shown ∷ []) }
{
    Acts {
        before: brought.before,
        between: None,
        last: Act {
            action,
            shown: brought.shown,
        },
        divided: None,
    }
}

/// `d = a op b`, which reads a flag or none.
pub(crate) fn two_row(
    target: &Target<'_>,
    alu: Alu,
    swaps: bool,
    carry: Option<Pinned>,
    first: &Expr,
    second: &Expr,
) -> Option<Acts>
    ensures { let home = homes_of target.now.homes.now in
        let d = target.now.to.now in
        FindsActs (IsTwo home target.now.size alu swaps carry d first.now second.now) result }
{
    let both = operands_of(target.homes, target.size, first, second)?;
    let to = target.destination()?;
    let brought = bring(swaps, target.size, to.arg, both.first, both.second)?;
    let action = Action::Alu(alu, target.size, to.arg, brought.second, carry);
    Some(behind(brought, action))
}

fn flagged_row(
    target: &Target<'_>,
    alu: Alu,
    swaps: bool,
    first: &Expr,
    second: &Expr,
    flag: &Var,
) -> Option<Acts>
    ensures { let home = homes_of target.now.homes.now in
        let d = target.now.to.now in
        let c = expr.Var flag.now in
        FindsActs (IsCarried home target.now.size alu swaps d first.now second.now c) result }
{
    let carry = flag_in(target.homes, flag)?;
    two_row(target, alu, swaps, Some(carry), first, second)
}

/// The same, with a flag behind.
pub(crate) fn carried_row(
    target: &Target<'_>,
    alu: Alu,
    swaps: bool,
    first: &Expr,
    second: &Expr,
    flag: &Expr,
) -> Option<Acts>
    ensures { let home = homes_of target.now.homes.now in
        let d = target.now.to.now in
        FindsActs (IsCarried home target.now.size alu swaps d first.now second.now flag.now)
        result }
{
    match flag {
        Expr::Var(var) => flagged_row(target, alu, swaps, first, second, var),
        _ => None,
    }
}

/// Whether an operand is in memory or in a cell.
fn is_access(operand: Arg) -> bool
    ensures yes { IsTrue result → NotAccess operand → ⊥ }
    ensures no { IsFalse result → NotAccess operand }
{
    match operand {
        Arg::Mem(_) => true,
        Arg::Cell(_) => true,
        Arg::Var(_) => false,
        Arg::Imm(_) => false,
        Arg::At(_, _) => false,
    }
}

/// CMP and TEST, which write no operand.
pub(crate) fn compare_row(
    homes: &Homes,
    size: Size,
    alu: Alu,
    first: &Expr,
    second: &Expr,
) -> Option<Acts>
    ensures { let home = homes_of homes.now in
        FindsActs (IsComparison home size alu first.now second.now) result }
{
    let both = operands_of(homes, size, first, second)?;
    let x = both.first;
    let y = both.second;
    if is_imm(x.arg) {
        return None;
    }
    if is_access(y.arg) {
        return None;
    }
    Some(Acts {
        before: None,
        between: None,
        last: Act {
            action: Action::Alu(alu, size, x.arg, y.arg, None),
            shown: Shown {
                first: told(x.leaks, 0),
                second: told(y.leaks, count(x.leaks)),
            },
        },
        divided: None,
    })
}
