//! Comparisons, and the conditions behind them.

ghost use Rattle.std.specs.Prelude.{◌≡◌, ◌≤◌};
ghost use Rattle.std.specs.Option.{option_or};
ghost use Rattle.jz_tree.specs.Span.{Span};
ghost use Rattle.jz_tree.specs.declared.expr.Expr.TheVariants as expr;
ghost use Rattle.jz_meaning.specs.Values as values;
ghost use Rattle.jz_row_operations.specs.Lowering.{condition_shown};
ghost use Rattle.jz_rows.specs.TableHomes.{homes_of, leaks_of};
ghost use Rattle.jz_rows.specs.Refusals.{FindsOr};
ghost use Rattle.jz_rows.specs.Rows.{item_of, Compares, NeverCompares};

use crate::args::is_imm;
use crate::bringing::{count, told};
use crate::operators::{cond_of, opposite};
use crate::row::Shown;
use jz_encodable::can_encode;
use jz_meaning::own_size;
use jz_operands::{Homes, Leaks, operand_of};
use jz_operations::Action;
use jz_tree::{BinOp, Expr, Size};
use x64_insn::{Alu, Cond};

/// A comparison, the condition that holds behind it, and what its operands leak.
#[derive(Clone, Copy)]
pub struct Comparison {
    pub action: Action,
    pub cond: Cond,
    pub first: Leaks,
    pub second: Leaks,
}

fn size_of_both(first: &Expr, second: &Expr) -> Option<Size>
    ensures { result ≡ option_or (values.own_size first.now) (values.own_size second.now) }
{
    match own_size(first) {
        None => own_size(second),
        Some(size) => Some(size),
    }
}

/// `a cmp o`, a no number, where CMP can be encoded.
fn compare(homes: &Homes, op: BinOp, first: &Expr, second: &Expr) -> Option<Comparison>
    ensures { (here : Span) → let home = homes_of homes.now in
        let e = expr.Bin op first.now second.now here in
        FindsOr result (Compares home e) (NeverCompares home e) }
{
    let cond = cond_of(op)?;
    let size = size_of_both(first, second)?;
    let x = operand_of(homes, size, first)?;
    let y = operand_of(homes, size, second)?;
    if is_imm(x.arg) {
        return None;
    }
    let action = Action::Alu(Alu::Cmp, size, x.arg, y.arg, None);
    if !can_encode(action) {
        return None;
    }
    Some(Comparison {
        action,
        cond,
        first: x.leaks,
        second: y.leaks,
    })
}

/// The numbers that a comparison shows, so many being leaked before it.
#[tactic(auto, using(crate::proofs::SettingLemmas::shown_is))]
pub fn shown_of(found: Comparison, before: u64) -> Shown
    requires { before ≤ 1 }
    ensures { item_of result ≡ condition_shown (leaks_of found.first) (leaks_of found.second)
        before }
{
    let behind = before + count(found.first);
    Shown {
        first: told(found.first, before),
        second: told(found.second, behind),
    }
}

/// A comparison, or one that is denied; nothing where CMP has none of it.
pub fn compared(homes: &Homes, condition: &Expr) -> Option<Comparison>
    ensures { let home = homes_of homes.now in
        FindsOr result (Compares home condition.now) (NeverCompares home condition.now) }
{
    match condition {
        Expr::Bin(op, first, second, _) => compare(homes, *op, first.get(), second.get()),
        Expr::Not(inner, _) => {
            let found = compared(homes, inner.get())?;
            Some(Comparison {
                action: found.action,
                cond: opposite(found.cond),
                first: found.first,
                second: found.second,
            })
        }
        _ => None,
    }
}
