//! Quotients and remainders.

ghost use Rattle.std.specs.Prelude.{◌≡◌, ◌≤◌, None, Some};
ghost use Rattle.jz_flag_rows.specs.Wide as wide;
ghost use Rattle.jz_pinned_rows.specs.TableHomes.{homes_of, leaks_of};
ghost use Rattle.jz_pinned_rows.specs.Refusals.{FindsOr};
ghost use Rattle.jz_pinned_rows.specs.Rows.{actions_of, items_of, three_in, FindsActs};
ghost use Rattle.jz_pinned_rows.specs.InnerRows.{IsQuotient, IsQuotientOf};

use crate::apart::is_apart;
use crate::parts::{Operands, is_long, words_of};
use crate::results::word_result;
use crate::row::{Acts, Divided};
use jz_operands::Homes;
use jz_operations::{Action, Arg, Pinned};
use jz_rows::{Act, Shown, count, told};
use jz_tree::{BinOp, Expr, Lval, Size};
use x64_insn::{Reg, Wide};

/// The instruction of a division.
fn divider(op: BinOp) -> Option<Wide>
    ensures { FindsOr result (λ w. wide.divider op ≡ Some w) (wide.divider op ≡ None) }
{
    match op {
        BinOp::Div => Some(Wide::Div),
        BinOp::Rem => Some(Wide::Div),
        BinOp::DivS => Some(Wide::Idiv),
        BinOp::RemS => Some(Wide::Idiv),
        _ => None,
    }
}

/// Whether the result is in RAX, and not in RDX.
fn is_quotient(op: BinOp) -> bool
    ensures { result ≡ wide.is_quotient op }
{
    match op {
        BinOp::Div => true,
        BinOp::DivS => true,
        _ => false,
    }
}

/// RDX is 0, or repeats the sign of RAX.
fn high_half(kind: Wide, size: Size, low: Option<Pinned>, high: Option<Pinned>) -> Action
    ensures { result ≡ wide.high_code kind size low high }
{
    match kind {
        Wide::Idiv => Action::Sign(size, low, high),
        Wide::Mul => Action::Mov(size, Arg::At(Reg::Rdx, high), Arg::Imm(0)),
        Wide::Imul => Action::Mov(size, Arg::At(Reg::Rdx, high), Arg::Imm(0)),
        Wide::Div => Action::Mov(size, Arg::At(Reg::Rdx, high), Arg::Imm(0)),
    }
}

/// The places of the three numbers of a division, so many being leaked before it.
pub fn numbers_behind(before: u64) -> Divided
    requires { before ≤ 3 }
    ensures { three_in (Some result) ≡ wide.three_from before }
{
    Divided {
        high: before,
        low: before + 1,
        by: before + 2,
    }
}

/// The first operand to RAX, RDX, and the division.
fn divided(
    kind: Wide,
    size: Size,
    low: Option<Pinned>,
    high: Option<Pinned>,
    both: Operands,
) -> Acts
    ensures actions { actions_of result
        ≡ wide.divide_code kind size low high both.first.arg both.second.arg }
    ensures items { items_of result
        ≡ wide.divide_shown (leaks_of both.first.leaks) (leaks_of both.second.leaks) }
{
    let before = count(both.first.leaks);
    let more = count(both.second.leaks);
    let one = told(both.first.leaks, 0);
    let other = told(both.second.leaks, before);
    let half = high_half(kind, size, low, high);
    let numbers = numbers_behind(before + more);
    let copy = Act {
        action: Action::Mov(size, Arg::At(Reg::Rax, low), both.first.arg),
        shown: Shown {
            first: one,
            second: None,
        },
    };
    let extend = Act {
        action: half,
        shown: Shown {
            first: None,
            second: None,
        },
    };
    let divide = Act {
        action: Action::Wide(kind, size, low, high, both.second.arg),
        shown: Shown {
            first: other,
            second: None,
        },
    };
    Acts {
        before: Some(copy),
        between: Some(extend),
        last: divide,
        divided: Some(numbers),
    }
}

/// The result's variable is in the one register, and the other is written besides.
fn quotient(op: BinOp, kind: Wide, size: Size, result_in: Pinned, both: Operands) -> Acts
    ensures actions { actions_of result
        ≡ wide.quotient_code op kind size result_in both.first.arg both.second.arg }
    ensures items { items_of result
        ≡ wide.divide_shown (leaks_of both.first.leaks) (leaks_of both.second.leaks) }
{
    if is_quotient(op) {
        divided(kind, size, Some(result_in), None, both)
    } else {
        divided(kind, size, None, Some(result_in), both)
    }
}

/// The actions of `left = first / second` and of its like, op one of `/ % /s %s`.
fn division_row(
    homes: &Homes,
    size: Size,
    left: &Lval,
    op: BinOp,
    first: &Expr,
    second: &Expr,
) -> Option<Acts>
    ensures { let home = homes_of homes.now in
        FindsActs (IsQuotient home size left.now op first.now second.now) result }
{
    let kind = divider(op)?;
    if !is_long(size) {
        return None;
    }
    let pinned = word_result(homes, size, left)?;
    let variable = pinned?;
    let both = words_of(homes, size, first, second)?;
    if !is_apart(Some(variable), both.second.arg) {
        return None;
    }
    Some(quotient(op, kind, size, variable, both))
}

/// The actions of an assignment of this right side to one left side.
pub(crate) fn quotient_row(homes: &Homes, size: Size, left: &Lval, value: &Expr) -> Option<Acts>
    ensures { let home = homes_of homes.now in
        FindsActs (IsQuotientOf home size left.now value.now) result }
{
    match value {
        Expr::Bin(op, first, second, _) => {
            division_row(homes, size, left, *op, first.get(), second.get())
        }
        _ => None,
    }
}
