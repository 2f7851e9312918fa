//! Products of two words.

ghost use Rattle.std.specs.Prelude.{◌≡◌, None};
ghost use Rattle.x64_insn.specs.declared.types.Wide.TheVariants as wide;
ghost use Rattle.jz_operations.specs.declared.operation.Action.TheVariants as action;
ghost use Rattle.jz_flag_rows.specs.Wide.{wide_code};
ghost use Rattle.jz_pinned_rows.specs.TableHomes.{homes_of};
ghost use Rattle.jz_pinned_rows.specs.Refusals.{FindsOr};
ghost use Rattle.jz_one_flag_row.specs.Forms.{IsWideProduct};
ghost use Rattle.jz_pinned_rows.specs.Rows.{FindsActs};
ghost use Rattle.jz_pinned_rows.specs.InnerRows.{IsMultiplied};

use crate::apart::{is_apart, is_pinned};
use crate::parts::{Operands, is_long, words_of};
use crate::results::word_result;
use crate::row::Acts;
use jz_operands::Homes;
use jz_operations::{Action, Arg, Pinned};
use jz_rows::{Act, Shown, count, is_imm, told};
use jz_tree::{Expr, Lval, Size};
use x64_insn::{Reg, Wide};

/// MUL alone, by an operand that shows this.
fn multiply(
    size: Size,
    high: Option<Pinned>,
    low: Option<Pinned>,
    by: Arg,
    first: Option<u64>,
) -> Act
    ensures action { result.action ≡ action.Wide wide.Mul size low high by }
    ensures shown { result.shown ≡ record { first = first; second = None } }
{
    Act {
        action: Action::Wide(Wide::Mul, size, low, high, by),
        shown: Shown {
            first,
            second: None,
        },
    }
}

/// The first operand is the low word's variable; or the second one is, and both are swapped; or that
/// variable stands nowhere in the second one, and the first is copied to RAX.
#[tactic(auto, using(crate::proofs::WideLemmas::in_place, crate::proofs::WideLemmas::swapped, crate::proofs::WideLemmas::copied))]
fn multiplied(size: Size, high: Option<Pinned>, low: Option<Pinned>, both: Operands) -> Option<Acts>
    ensures { FindsOr result (IsMultiplied size high low both)
        (wide_code size high low both.first.arg both.second.arg ≡ None) }
{
    let x = both.first;
    let y = both.second;
    let one = told(x.leaks, 0);
    let other = told(y.leaks, count(x.leaks));
    if is_pinned(low, x.arg) {
        return Some(Acts {
            before: None,
            between: None,
            last: multiply(size, high, low, y.arg, other),
            divided: None,
        });
    }
    if !is_imm(x.arg) && is_pinned(low, y.arg) {
        return Some(Acts {
            before: None,
            between: None,
            last: multiply(size, high, low, x.arg, one),
            divided: None,
        });
    }
    if !is_apart(low, y.arg) {
        return None;
    }
    let copy = Act {
        action: Action::Mov(size, Arg::At(Reg::Rax, low), x.arg),
        shown: Shown {
            first: one,
            second: None,
        },
    };
    Some(Acts {
        before: Some(copy),
        between: None,
        last: multiply(size, high, low, y.arg, other),
        divided: None,
    })
}

/// The actions of `high, low = first * second`.
pub fn product_row(
    homes: &Homes,
    size: Size,
    high: &Lval,
    low: &Lval,
    first: &Expr,
    second: &Expr,
) -> Option<Acts>
    ensures { let home = homes_of homes.now in
        FindsActs (IsWideProduct home size high.now low.now first.now second.now) result }
{
    if !is_long(size) {
        return None;
    }
    let upper = word_result(homes, size, high)?;
    let lower = word_result(homes, size, low)?;
    let both = words_of(homes, size, first, second)?;
    multiplied(size, upper, lower, both)
}
