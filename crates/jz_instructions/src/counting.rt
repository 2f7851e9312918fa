//! Shifts and rotations.

ghost use Rattle.std.specs.Prelude.{◌≡◌, pos};
ghost use Rattle.jz_tree.specs.Span.{Span};
ghost use Rattle.jz_tree.specs.declared.expr.BinOp.TheVariants as op;
ghost use Rattle.jz_tree.specs.declared.expr.Expr.TheVariants as expr;
ghost use Rattle.jz_row_operations.specs.Rows.{mask_of as mask_at};
ghost use Rattle.jz_flag_rows.specs.Instructions.{IsCount};
ghost use Rattle.jz_one_flag_row.specs.Forms.{IsCounted};
ghost use Rattle.jz_instructions.specs.TableHomes.{homes_of};
ghost use Rattle.jz_instructions.specs.Refusals.{FindsOr};
ghost use Rattle.jz_pinned_rows.specs.Rows.{FindsActs};
ghost use Rattle.jz_instructions.specs.InnerRows.{places_in, number_in, second_of, action_of};
ghost use Rattle.jz_instructions.specs.InnerRows.{NeverCount};

use crate::binary::behind;
use jz_operands::{Homes, Leaks, Operand};
use jz_operations::{Action, Arg, Pinned};
use jz_pinned_rows::Acts;
use jz_rows::{NOTHING, Target, bring, byte_in, count_in, mask_of};
use jz_tree::{BinOp, Expr, Size, Var};
use x64_insn::Shift;

/// By how many places a shift goes: a number below the size, or a byte in CL.
#[derive(Clone, Copy)]
pub(crate) enum Count {
    Number(u8),
    Variable(Pinned),
}

fn by_number(homes: &Homes, size: Size, number: i128) -> Option<Count>
    ensures { (at : Span) → let home = homes_of homes.now in
        let e = expr.Num number at in
        FindsOr result (λ n. IsCount home size e (places_in n) (number_in n))
        (NeverCount home size e) }
{
    let places = count_in(number, size)?;
    Some(Count::Number(places))
}

fn by_variable(homes: &Homes, size: Size, var: &Var) -> Option<Count>
    ensures { (there here : Span) → let home = homes_of homes.now in
        let mask = expr.Num (pos (mask_at size)) there in
        let e = expr.Bin op.And (expr.Var var.now) mask here in
        FindsOr result (λ n. IsCount home size e (places_in n) (number_in n))
        (NeverCount home size e) }
{
    let places = byte_in(homes, var)?;
    Some(Count::Variable(places))
}

/// A variable and its mask.
fn masked(homes: &Homes, size: Size, var: &Expr, mask: &Expr) -> Option<Count>
    ensures { (here : Span) → let home = homes_of homes.now in
        let e = expr.Bin op.And var.now mask.now here in
        FindsOr result (λ n. IsCount home size e (places_in n) (number_in n))
        (NeverCount home size e) }
{
    match var {
        Expr::Var(var) => match mask {
            Expr::Num(number, _) => {
                if *number == mask_of(size) {
                    by_variable(homes, size, var)
                } else {
                    None
                }
            }
            _ => None,
        },
        _ => None,
    }
}

fn count_of(homes: &Homes, size: Size, count: &Expr) -> Option<Count>
    ensures { let home = homes_of homes.now in
        FindsOr result (λ n. IsCount home size count.now (places_in n) (number_in n))
        (NeverCount home size count.now) }
{
    match count {
        Expr::Num(number, _) => by_number(homes, size, *number),
        Expr::Bin(op, var, mask, _) => match op {
            BinOp::And => masked(homes, size, var.get(), mask.get()),
            _ => None,
        },
        _ => None,
    }
}

/// What stands beside the first operand.
fn beside(places: Count) -> Operand
    ensures { result ≡ second_of places }
{
    match places {
        Count::Number(_) => NOTHING,
        Count::Variable(pinned) => Operand {
            arg: Arg::Var(pinned.variable),
            leaks: Leaks::Silent,
        },
    }
}

fn shift_by(kind: Shift, size: Size, to: Arg, places: Count) -> Action
    ensures { result ≡ action_of kind size to places }
{
    match places {
        Count::Number(places) => Action::Shift(kind, size, to, places),
        Count::Variable(pinned) => Action::ShiftBy(kind, size, to, pinned),
    }
}

/// SHL, SHR, SAR, ROL and ROR.
pub(crate) fn count_row(
    target: &Target<'_>,
    kind: Shift,
    operand: &Expr,
    count: &Expr,
) -> Option<Acts>
    ensures { let home = homes_of target.now.homes.now in
        let d = target.now.to.now in
        FindsActs (IsCounted home target.now.size kind d operand.now count.now) result }
{
    let places = count_of(target.homes, target.size, count)?;
    let x = target.operand(operand)?;
    let to = target.destination()?;
    let brought = bring(false, target.size, to.arg, x, beside(places))?;
    Some(behind(brought, shift_by(kind, target.size, to.arg, places)))
}
