//! What sets one inline variable, and what sets others.

ghost use Rattle.std.specs.Prelude.{◌≡◌, ◌↔◌, true, MatchOption};
ghost use Rattle.jz_tree.specs.Failures.{IfAnswered};
ghost use Rattle.jz_tree.specs.declared.expr.Expr.TheViews.{out-Expr};
ghost use Rattle.jz_unroll.specs.Values as inlined;
ghost use Rattle.jz_meaning.specs.Values.{ref_of};
ghost use Rattle.jz_unroll.specs.Values.{is_int};
ghost use Rattle.jz_unroll.specs.Unrolling.{ConditionIs, IsInlineInt};
ghost use Rattle.jz_unrolling_values.specs.InlineNames.{names_in};
ghost use Rattle.jz_unrolling_values.specs.Numbers.{numbers_in};
ghost use Rattle.jz_unrolling_values.specs.Parts.{is_number, updated_value, HasWhole, StandsApart};
ghost use Rattle.jz_unrolling_values.specs.Refusals.{OrElse, SetsNoInline, SetsOne, NeverWhole, NeverIf};

use crate::conditions::{Test, test_of};
use crate::expressions::{Values, part_of};
use crate::inline_vars::InlineVars;
use crate::parts::Part;
use jz_integers::{Constant, constant_of, joined};
use jz_meaning::{Kind, is_flag, kind_of};
use jz_tree::{BinOp, Expr, Failure, Lval, Seq, Span, Var};
use jz_type_names::is_inline;

/// The inline variable that is set, where nothing else is.
pub fn inline_target<'a>(vars: &InlineVars, to: &'a Seq<Lval>) -> Option<&'a Var>
    ensures { let names = names_in vars.now in
        MatchOption result (SetsNoInline names to.now) (λ var. SetsOne names to.now var.now) }
{
    if to.len() != 1 {
        return None;
    }
    match to.get(0) {
        None => None,
        Some(Lval::Skip(_)) => None,
        Some(Lval::Cell(_, _)) => None,
        Some(Lval::Store(_)) => None,
        Some(Lval::Var(var)) => {
            if vars.has(&var.name, var.copy) {
                Some(var)
            } else {
                None
            }
        }
    }
}

fn is_integer(var: &Var) -> bool
    ensures { result ≡ is_int (ref_of var.now).kind }
{
    matches!(kind_of(var), Kind::Int)
}

/// Whether it is an inline variable as a whole, and an integer.
pub fn is_inline_number(vars: &InlineVars, var: &Var) -> bool
    ensures { result ≡ is_number (names_in vars.now) var.now }
{
    var.cell.is_none() && (is_integer(var) && vars.has(&var.name, var.copy))
}

/// A value, or that of an operation on the variable and it.
fn updated(
    values: &Values<'_>,
    var: &Var,
    op: Option<BinOp>,
    value: Option<Constant>,
) -> Option<Constant>
    ensures { result ≡ updated_value (numbers_in values.now.known.now) var.now op value }
{
    match op {
        None => value,
        Some(op) => joined(
            op,
            constant_of(values.known.number(&var.name, var.copy)),
            value,
        ),
    }
}

/// The number that an inline variable gets, of an operation with what it has. Refused where there
/// is none.
pub fn new_number(
    values: &Values<'_>,
    var: &Var,
    op: Option<BinOp>,
    value: &Expr,
) -> Result<i128, Failure<Span>>
    requires { IsInlineInt (names_in values.now.vars.now) var.now }
    ensures { let e = numbers_in values.now.known.now in
        IfAnswered result (OrElse (HasWhole e var.now op value.now)
        (NeverWhole e var.now op value.now)) }
{
    let number = match part_of(values, value)? {
        Part::Plain(_) => return Err(Failure::Refused(var.span)),
        Part::Inline(number, _) => number,
    };
    match updated(values, var, op, number) {
        Some(Constant::Int(n)) => Ok(n),
        Some(Constant::Bool(_)) => Err(Failure::Refused(var.span)),
        None => Err(Failure::Refused(var.span)),
    }
}

/// Whether the new number counts. Behind a condition the old one has to be there.
pub fn is_set(values: &Values<'_>, var: &Var, cond: &Option<Expr>) -> Result<bool, Failure<Span>>
    ensures { let e = numbers_in values.now.known.now in
        IfAnswered result (OrElse (ConditionIs e var.now cond.now) (NeverIf e var.now cond.now)) }
{
    match cond {
        None => Ok(true),
        Some(cond) => match test_of(values, cond)? {
            Test::Asked(_) => Err(Failure::Refused(var.span)),
            Test::Always(answer, _) => {
                if values.known.number(&var.name, var.copy).is_none() {
                    return Err(Failure::Refused(var.span));
                }
                Ok(answer)
            }
        },
    }
}

fn splits(expr: &Expr) -> bool
    ensures { result ≡ inlined.splits (out-Expr expr.now) }
{
    match expr {
        Expr::Bin(_, left, right, _) => !is_flag(right.get()) || !is_inline(left.get()),
        _ => true,
    }
}

/// Whether, of an operation with several results, the operands stand in the text. The operation of
/// `op=` has the left side as an operand.
pub fn stands_apart(to: &Seq<Lval>, op: Option<BinOp>, value: &Expr) -> bool
    ensures { result ≡ true ↔ StandsApart to.now op value.now }
{
    match op {
        Some(_) => true,
        None => to.len() == 1 || (!is_inline(value) && splits(value)),
    }
}
