//! The row of SETcc.

ghost use Rattle.jz_tree.specs.declared.expr.Expr.{Expr as Tree};
ghost use Rattle.jz_homes.specs.Homes.{Homes as Places};
ghost use Rattle.jz_rows.specs.Rows.{Compares};
ghost use Rattle.jz_instructions.specs.TableHomes.{homes_of};
ghost use Rattle.jz_instructions.specs.Refusals.{FindsOr};
ghost use Rattle.jz_pinned_rows.specs.Rows.{NeverFlag};
ghost use Rattle.jz_instructions.specs.InnerRows.{IsHeld, NeverHeld};
ghost use Rattle.jz_instructions.specs.InnerRows.{IsByteRow, NeverByteRow};

use jz_encodable::can_encode;
use jz_operands::{Homes, destination_of};
use jz_operations::{Action, Condition};
use jz_pinned_rows::{Acts, PinnedRow, flag_test, no_flags};
use jz_rows::{Act, Comparison, Shown, compared, count, shown_of, told};
use jz_tree::{Expr, Lval, Size};

/// A condition behind the comparison that it has, and how many numbers that leaks.
#[derive(Clone, Copy)]
pub(crate) struct Held {
    pub(crate) before: Option<Act>,
    pub(crate) condition: Condition,
    pub(crate) leaked: u64,
}

fn comparison_held(found: Comparison) -> Held
    ensures { (home : Places) (e : Tree) → Compares home e found → IsHeld home e result }
{
    Held {
        before: Some(Act {
            action: found.action,
            shown: shown_of(found, 0),
        }),
        condition: Condition::Cc(found.cond),
        leaked: count(found.first) + count(found.second),
    }
}

fn flag_held(homes: &Homes, condition: &Expr) -> Option<Held>
    ensures { let home = homes_of homes.now in
        FindsOr result (IsHeld home condition.now) (NeverFlag home condition.now) }
{
    let found = flag_test(homes, condition)?;
    Some(Held {
        before: None,
        condition: Condition::Flag(found.variable, found.denied),
        leaked: 0,
    })
}

/// A comparison, or a bool variable.
fn condition_held(homes: &Homes, condition: &Expr) -> Option<Held>
    ensures { let home = homes_of homes.now in
        FindsOr result (IsHeld home condition.now) (NeverHeld home condition.now) }
{
    match compared(homes, condition) {
        Some(found) => Some(comparison_held(found)),
        None => flag_held(homes, condition),
    }
}

/// A condition as a byte.
pub(crate) fn byte_row(homes: &Homes, to: &Lval, condition: &Expr) -> Option<PinnedRow>
    ensures { let home = homes_of homes.now in
        FindsOr result (IsByteRow home to.now condition.now)
        (NeverByteRow home to.now condition.now) }
{
    let found = destination_of(homes, Size::S8, to)?;
    let test = condition_held(homes, condition)?;
    let action = Action::Set(test.condition, found.arg);
    if !can_encode(action) {
        return None;
    }
    let shown = Shown {
        first: told(found.leaks, test.leaked),
        second: None,
    };
    Some(PinnedRow {
        acts: Acts {
            before: test.before,
            between: None,
            last: Act { action, shown },
            divided: None,
        },
        flags: no_flags(),
    })
}
