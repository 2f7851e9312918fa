//! Choices and tests of bool variables.

ghost use Rattle.std.specs.Prelude.{◌≡◌, ◌∷◌, [], ℕ, Bool, None, Some};
ghost use Rattle.jz_tree.specs.declared.expr.Expr.TheVariants as expr;
ghost use Rattle.jz_tree.specs.declared.stmt.Lval.TheVariants as lval;
ghost use Rattle.jz_meaning.specs.declared.access.Kind.TheVariants as kind;
ghost use Rattle.jz_meaning.specs.Values.{ref_of};
ghost use Rattle.jz_flag_rows.specs.Conditions.{IsFlagCondition};
ghost use Rattle.jz_pinned_rows.specs.TableHomes.{homes_of};
ghost use Rattle.jz_pinned_rows.specs.Refusals.{FindsOr};
ghost use Rattle.jz_pinned_rows.specs.Rows.{IsPinnedRow, NeverPinned, NeverFlag};

use crate::results::no_flags;
use crate::row::{Acts, PinnedRow};
use jz_encodable::can_encode;
use jz_meaning::{Kind, kind_of};
use jz_operands::{Homes, operand_of};
use jz_operations::{Action, Condition};
use jz_rows::{Act, Shown, flag_in, is_imm, is_wide, told, word_in};
use jz_tree::{Expr, Lval, Size, Var};

/// The variable of a flag that holds, or does not where it is denied.
#[derive(Clone, Copy)]
pub struct FlagTest {
    pub variable: u32,
    pub denied: bool,
}

fn bool_itself(homes: &Homes, var: &Var) -> Option<FlagTest>
    requires { (ref_of var.now).kind ≡ kind.Bool }
    ensures { let home = homes_of homes.now in
        let e = expr.Var var.now in
        FindsOr result (λ t. IsFlagCondition home e t.variable t.denied) (NeverFlag home e) }
{
    let flag = flag_in(homes, var)?;
    Some(FlagTest {
        variable: flag.variable,
        denied: false,
    })
}

fn flag_itself(homes: &Homes, var: &Var) -> Option<FlagTest>
    ensures { let home = homes_of homes.now in
        let e = expr.Var var.now in
        FindsOr result (λ t. IsFlagCondition home e t.variable t.denied) (NeverFlag home e) }
{
    match kind_of(var) {
        Kind::Bool => bool_itself(homes, var),
        Kind::Undeclared => None,
        Kind::Int => None,
        Kind::Word(_) => None,
        Kind::Array(_, _) => None,
    }
}

/// A bool variable, or one that is denied.
pub fn flag_test(homes: &Homes, condition: &Expr) -> Option<FlagTest>
    ensures { let home = homes_of homes.now in
        let e = condition.now in
        FindsOr result (λ t. IsFlagCondition home e t.variable t.denied) (NeverFlag home e) }
{
    match condition {
        Expr::Var(var) => flag_itself(homes, var),
        Expr::Not(inner, _) => {
            let found = flag_test(homes, inner.get())?;
            Some(FlagTest {
                variable: found.variable,
                denied: !found.denied,
            })
        }
        _ => None,
    }
}

/// `var = value if cond`, var a word of this size.
fn choice_row(homes: &Homes, size: Size, var: &Var, value: &Expr, cond: &Expr) -> Option<PinnedRow>
    requires { (ref_of var.now).kind ≡ kind.Word size }
    ensures { let home = homes_of homes.now in
        let to = lval.Var var.now ∷ [] in
        FindsOr result (IsPinnedRow home to None value.now (Some cond.now))
        (NeverPinned home to None value.now (Some cond.now)) }
{
    if !is_wide(size) {
        return None;
    }
    let register = word_in(homes, size, var)?;
    let y = operand_of(homes, size, value)?;
    if is_imm(y.arg) {
        return None;
    }
    let test = flag_test(homes, cond)?;
    let holds = Condition::Flag(test.variable, test.denied);
    let action = Action::Cmov(holds, size, register, y.arg);
    if !can_encode(action) {
        return None;
    }
    let shown = Shown {
        first: told(y.leaks, 0),
        second: None,
    };
    Some(PinnedRow {
        acts: Acts {
            before: None,
            between: None,
            last: Act { action, shown },
            divided: None,
        },
        flags: no_flags(),
    })
}

/// The row of `to = value if cond`.
pub(crate) fn chosen_row(homes: &Homes, to: &Lval, value: &Expr, cond: &Expr) -> Option<PinnedRow>
    ensures { let home = homes_of homes.now in
        let to = to.now ∷ [] in
        FindsOr result (IsPinnedRow home to None value.now (Some cond.now))
        (NeverPinned home to None value.now (Some cond.now)) }
{
    match to {
        Lval::Var(var) => match kind_of(var) {
            Kind::Word(size) => choice_row(homes, size, var, value, cond),
            Kind::Undeclared => None,
            Kind::Int => None,
            Kind::Bool => None,
            Kind::Array(_, _) => None,
        },
        Lval::Skip(_) => None,
        Lval::Cell(_, _) => None,
        Lval::Store(_) => None,
    }
}
