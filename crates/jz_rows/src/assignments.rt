//! The row of an assignment of one left side, form by form.

ghost use Rattle.std.specs.Prelude.{◌≡◌, false, pos};
ghost use Rattle.jz_tree.specs.Span.{Span};
ghost use Rattle.jz_tree.specs.declared.expr.BinOp.TheVariants.{And, Mul};
ghost use Rattle.jz_tree.specs.declared.expr.Expr.{Expr as Tree};
ghost use Rattle.jz_tree.specs.declared.expr.Expr.TheVariants as expr;
ghost use Rattle.jz_row_operations.specs.Rows.{IsSign, mask_of as mask_at};
ghost use Rattle.jz_rows.specs.Refusals.{FindsOr};
ghost use Rattle.jz_rows.specs.Found.{IsRow, NeverBy, NeverRow, Moves, Sums, Carries, Signs};
ghost use Rattle.jz_rows.specs.Found.{Times, TimesBy, Shifts, ShiftsBy, Extends, Lowest};
ghost use Rattle.jz_words.specs.Readings.{fits_bytes};

use crate::args::{are_imm, is_imm};
use crate::bringing::{NOTHING, bring, count, told};
use crate::operators::{
    alu_of, carry_of, commutes, count_in, is_below, is_repeated, is_wide, mask_of, shift_of,
};
use crate::row::{Act, Row, Shown};
use crate::targets::{Target, byte_in, flag_in, number_in, variable_in};
use jz_meaning::own_size;
use jz_operands::{Leaks, Operand, operand_of};
use jz_operations::{Action, Arg};
use jz_tree::{BinOp, Expr, Size, Var, is_shift};
use jz_type_names::same_size;
use jz_words::fits_four_bytes;
use x64_insn::One;

/// `d = o`.
#[tactic(auto, using(crate::proofs::RowLemmas::move_is))]
fn move_row(target: &Target<'_>, value: &Expr) -> Option<Row>
    ensures { FindsOr result (IsRow target.now value.now) (NeverBy Moves target.now value.now) }
{
    let from = target.operand(value)?;
    let to = target.destination()?;
    let shown = Shown {
        first: told(to.leaks, count(from.leaks)),
        second: told(from.leaks, 0),
    };
    Some(Row {
        before: None,
        last: Act {
            action: Action::Mov(target.size, to.arg, from.arg),
            shown,
        },
    })
}

/// `d = a op o`, op one of `+ - & | ^`.
fn sum_row(target: &Target<'_>, op: BinOp, first: &Expr, second: &Expr) -> Option<Row>
    ensures { (at : Span) → let e = expr.Bin op first.now second.now at in
        FindsOr result (IsRow target.now e) (NeverBy Sums target.now e) }
{
    let alu = alu_of(op)?;
    let x = target.operand(first)?;
    let y = target.operand(second)?;
    if are_imm(x.arg, y.arg) {
        return None;
    }
    let to = target.destination()?;
    let brought = bring(commutes(op), target.size, to.arg, x, y)?;
    let action = Action::Alu(alu, target.size, to.arg, brought.second, None);
    Some(Row {
        before: brought.before,
        last: Act {
            action,
            shown: brought.shown,
        },
    })
}

/// `d = a + o + c`, `d = a - o - c`, c a flag.
fn carry_row(target: &Target<'_>, op: BinOp, first: &Expr, second: &Expr, flag: &Var) -> Option<Row>
    ensures { (inner at : Span) → let sum = expr.Bin op first.now second.now inner in
        let e = expr.Bin op sum (expr.Var flag.now) at in
        FindsOr result (IsRow target.now e) (NeverBy Carries target.now e) }
{
    let alu = carry_of(op)?;
    let carry = flag_in(target.homes, flag)?;
    let x = target.operand(first)?;
    let y = target.operand(second)?;
    if are_imm(x.arg, y.arg) {
        return None;
    }
    let to = target.destination()?;
    let brought = bring(commutes(op), target.size, to.arg, x, y)?;
    let action = Action::Alu(alu, target.size, to.arg, brought.second, Some(carry));
    Some(Row {
        before: brought.before,
        last: Act {
            action,
            shown: brought.shown,
        },
    })
}

/// A sum with a flag behind, where the last operand is one.
fn flagged_row(
    target: &Target<'_>,
    op: BinOp,
    first: &Expr,
    second: &Expr,
    last: &Expr,
) -> Option<Row>
    ensures { (inner at : Span) → let sum = expr.Bin op first.now second.now inner in
        let e = expr.Bin op sum last.now at in
        FindsOr result (IsRow target.now e) (NeverBy Carries target.now e) }
{
    match last {
        Expr::Var(flag) => carry_row(target, op, first, second, flag),
        _ => None,
    }
}

/// `- !` of one operand.
fn sign_row(target: &Target<'_>, op: One, operand: &Expr) -> Option<Row>
    ensures { (e : Tree) → IsSign op e operand.now →
        FindsOr result (IsRow target.now e) (NeverBy Signs target.now e) }
{
    let x = target.operand(operand)?;
    if is_imm(x.arg) {
        return None;
    }
    let to = target.destination()?;
    let brought = bring(false, target.size, to.arg, x, NOTHING)?;
    Some(Row {
        before: brought.before,
        last: Act {
            action: Action::One(op, target.size, to.arg),
            shown: brought.shown,
        },
    })
}

/// `r = a * o`, o no number.
fn times_row(target: &Target<'_>, first: &Expr, second: &Expr) -> Option<Row>
    ensures { (at : Span) → let e = expr.Bin Mul first.now second.now at in
        FindsOr result (IsRow target.now e) (NeverBy Times target.now e) }
{
    if !is_wide(target.size) {
        return None;
    }
    let x = target.operand(first)?;
    let y = target.operand(second)?;
    if is_imm(y.arg) {
        return None;
    }
    let register = target.register()?;
    let swaps = !is_imm(x.arg);
    let brought = bring(swaps, target.size, Arg::Var(register), x, y)?;
    Some(Row {
        before: brought.before,
        last: Act {
            action: Action::Imul(target.size, register, brought.second),
            shown: brought.shown,
        },
    })
}

/// A number of 32 bits.
fn narrow(number: i64) -> Option<i32>
    ensures { FindsOr result (λ n. n ≡ number) (fits_bytes 4 number ≡ false) }
{
    if fits_four_bytes(i128::from(number)) {
        Some(number as i32)
    } else {
        None
    }
}

/// `r = a * c`, c a number.
fn times_by_row(target: &Target<'_>, first: &Expr, second: &Expr) -> Option<Row>
    ensures { (at : Span) → let e = expr.Bin Mul first.now second.now at in
        FindsOr result (IsRow target.now e) (NeverBy TimesBy target.now e) }
{
    if !is_wide(target.size) {
        return None;
    }
    let x = target.operand(first)?;
    if is_imm(x.arg) {
        return None;
    }
    let y = target.operand(second)?;
    let long = number_in(y)?;
    let number = narrow(long)?;
    let register = target.register()?;
    Some(Row {
        before: None,
        last: Act {
            action: Action::ImulBy(target.size, register, x.arg, number),
            shown: Shown {
                first: told(x.leaks, 0),
                second: None,
            },
        },
    })
}

/// The row of a product of two operands.
pub fn product_row(target: &Target<'_>, first: &Expr, second: &Expr) -> Option<Row>
    ensures { (at : Span) → let e = expr.Bin Mul first.now second.now at in
        FindsOr result (IsRow target.now e)
        (NeverBy Times target.now e × NeverBy TimesBy target.now e) }
{
    match times_by_row(target, first, second) {
        Some(row) => Some(row),
        None => times_row(target, first, second),
    }
}

/// `d = a sh c`, c a number below the size.
fn shift_by_number(target: &Target<'_>, op: BinOp, first: &Expr, number: i128) -> Option<Row>
    ensures { (there at : Span) → let e = expr.Bin op first.now (expr.Num number there) at in
        FindsOr result (IsRow target.now e) (NeverBy Shifts target.now e) }
{
    let kind = shift_of(op)?;
    let places = count_in(number, target.size)?;
    let x = target.operand(first)?;
    if is_imm(x.arg) {
        return None;
    }
    let to = target.destination()?;
    let brought = bring(false, target.size, to.arg, x, NOTHING)?;
    Some(Row {
        before: brought.before,
        last: Act {
            action: Action::Shift(kind, target.size, to.arg, places),
            shown: brought.shown,
        },
    })
}

/// `d = a sh (v & k)`, v a byte.
fn shift_by_variable(target: &Target<'_>, op: BinOp, first: &Expr, var: &Var) -> Option<Row>
    ensures { (there inner at : Span) →
        let mask = expr.Num (pos (mask_at target.now.size)) there in
        let e = expr.Bin op first.now (expr.Bin And (expr.Var var.now) mask inner) at in
        FindsOr result (IsRow target.now e) (NeverBy ShiftsBy target.now e) }
{
    let kind = shift_of(op)?;
    let places = byte_in(target.homes, var)?;
    let x = target.operand(first)?;
    let to = target.destination()?;
    let variable = Operand {
        arg: Arg::Var(places.variable),
        leaks: Leaks::Silent,
    };
    let brought = bring(false, target.size, to.arg, x, variable)?;
    Some(Row {
        before: brought.before,
        last: Act {
            action: Action::ShiftBy(kind, target.size, to.arg, places),
            shown: brought.shown,
        },
    })
}

/// A shift by a variable and its mask.
fn shift_masked(
    target: &Target<'_>,
    op: BinOp,
    first: &Expr,
    var: &Expr,
    mask: &Expr,
) -> Option<Row>
    ensures { (inner at : Span) →
        let e = expr.Bin op first.now (expr.Bin And var.now mask.now inner) at in
        FindsOr result (IsRow target.now e) (NeverBy ShiftsBy target.now e) }
{
    match var {
        Expr::Var(var) => match mask {
            Expr::Num(number, _) => {
                if *number == mask_of(target.size) {
                    shift_by_variable(target, op, first, var)
                } else {
                    None
                }
            }
            _ => None,
        },
        _ => None,
    }
}

fn shift_row(target: &Target<'_>, op: BinOp, first: &Expr, second: &Expr) -> Option<Row>
    ensures { (at : Span) → let e = expr.Bin op first.now second.now at in
        FindsOr result (IsRow target.now e)
        (NeverBy Shifts target.now e × NeverBy ShiftsBy target.now e) }
{
    match second {
        Expr::Num(number, _) => shift_by_number(target, op, first, *number),
        Expr::Bin(and, var, mask, _) => match and {
            BinOp::And => shift_masked(target, op, first, var.get(), mask.get()),
            _ => None,
        },
        _ => None,
    }
}

/// `r = (tu)o`, `r = (ts)o`, o smaller.
fn extend_row(target: &Target<'_>, signed: bool, operand: &Expr) -> Option<Row>
    ensures { (at : Span) → let e = expr.Cast target.now.size signed operand.now at in
        FindsOr result (IsRow target.now e) (NeverBy Extends target.now e) }
{
    let from = own_size(operand)?;
    if !is_below(from, target.size) {
        return None;
    }
    let y = operand_of(target.homes, from, operand)?;
    if is_imm(y.arg) {
        return None;
    }
    let register = target.register()?;
    Some(Row {
        before: None,
        last: Act {
            action: Action::Extend {
                signed,
                to: target.size,
                from,
                var: register,
                rm: y.arg,
            },
            shown: Shown {
                first: told(y.leaks, 0),
                second: None,
            },
        },
    })
}

/// `r = (tu)a`, a in a register of the same size or a larger one.
fn lowest_row(target: &Target<'_>, operand: &Expr) -> Option<Row>
    ensures { (at : Span) → let e = expr.Cast target.now.size false operand.now at in
        FindsOr result (IsRow target.now e) (NeverBy Lowest target.now e) }
{
    let from = own_size(operand)?;
    if is_below(from, target.size) {
        return None;
    }
    let y = operand_of(target.homes, from, operand)?;
    let source = variable_in(y)?;
    let register = target.register()?;
    Some(Row {
        before: None,
        last: Act {
            action: Action::Mov(target.size, Arg::Var(register), Arg::Var(source)),
            shown: Shown {
                first: None,
                second: None,
            },
        },
    })
}

fn cast_row(target: &Target<'_>, size: Size, signed: bool, operand: &Expr) -> Option<Row>
    ensures { (at : Span) → let e = expr.Cast size signed operand.now at in
        FindsOr result (IsRow target.now e)
        (NeverBy Extends target.now e × NeverBy Lowest target.now e) }
{
    if !same_size(size, target.size) {
        return None;
    }
    match extend_row(target, signed, operand) {
        Some(row) => Some(row),
        None => {
            if signed {
                None
            } else {
                lowest_row(target, operand)
            }
        }
    }
}

fn sums_row(target: &Target<'_>, op: BinOp, first: &Expr, second: &Expr) -> Option<Row>
    ensures { (at : Span) → let e = expr.Bin op first.now second.now at in
        FindsOr result (IsRow target.now e)
        (NeverBy Sums target.now e × NeverBy Carries target.now e) }
{
    match first {
        Expr::Bin(inner, left, right, _) => {
            if is_repeated(op, *inner) {
                flagged_row(target, op, left.get(), right.get(), second)
            } else {
                None
            }
        }
        _ => sum_row(target, op, first, second),
    }
}

/// The row of an operation on two operands.
fn operation_row(target: &Target<'_>, op: BinOp, first: &Expr, second: &Expr) -> Option<Row>
    ensures { (at : Span) → let e = expr.Bin op first.now second.now at in
        FindsOr result (IsRow target.now e) (NeverRow target.now e) }
{
    if is_shift(op) {
        return shift_row(target, op, first, second);
    }
    match op {
        BinOp::Mul => product_row(target, first, second),
        _ => sums_row(target, op, first, second),
    }
}

/// The row of an assignment of this right side.
pub fn assignment_row(target: &Target<'_>, value: &Expr) -> Option<Row>
    ensures { FindsOr result (IsRow target.now value.now) (NeverRow target.now value.now) }
{
    match value {
        Expr::Num(_, _) => move_row(target, value),
        Expr::Bool(_, _) => None,
        Expr::Var(_) => move_row(target, value),
        Expr::Cell(_, _) => move_row(target, value),
        Expr::Load(_) => move_row(target, value),
        Expr::Neg(operand, _) => sign_row(target, One::Neg, operand.get()),
        Expr::Not(operand, _) => sign_row(target, One::Not, operand.get()),
        Expr::Cast {
            size,
            signed,
            e,
            span: _,
        } => cast_row(target, *size, *signed, e.get()),
        Expr::Bin(op, first, second, _) => { operation_row(target, *op, first.get(), second.get()) }
    }
}
