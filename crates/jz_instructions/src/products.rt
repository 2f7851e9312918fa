//! Products and divisions.

ghost use Rattle.std.specs.Prelude.{◌≡◌, ◌≤◌};
ghost use Rattle.jz_tree.specs.Span.{Span};
ghost use Rattle.jz_tree.specs.declared.expr.BinOp.TheVariants as op;
ghost use Rattle.jz_tree.specs.declared.expr.Expr.TheVariants as expr;
ghost use Rattle.jz_row_operations.specs.Lowering.{HasRow};
ghost use Rattle.jz_flag_rows.specs.Wide as wide;
ghost use Rattle.jz_one_flag_row.specs.Forms.{IsLongDivision};
ghost use Rattle.jz_instructions.specs.TableHomes.{homes_of, leaks_of};
ghost use Rattle.jz_instructions.specs.Refusals.{FindsOr};
ghost use Rattle.jz_pinned_rows.specs.Rows.{FindsActs, actions_of, items_of};
ghost use Rattle.jz_instructions.specs.InnerRows.{AreTwoWords, NeverTwoWords};
ghost use Rattle.jz_instructions.specs.InnerRows.{AreThree, NeverThree, divided_apart};

use crate::shaping::TwoThree;
use jz_operands::{Homes, Operand, operand_of};
use jz_operations::{Action, Arg, Pinned};
use jz_pinned_rows::{Acts, acts_in, is_apart, is_long, numbers_behind, word_result};
use jz_rows::{Act, Shown, Target, count, is_imm, product_row, told};
use jz_tree::{Expr, Lval, Size};
use x64_insn::{Reg, Wide};

/// IMUL of two or three operands.
pub(crate) fn times_row(target: &Target<'_>, first: &Expr, second: &Expr) -> Option<Acts>
    ensures { (at : Span) → let home = homes_of target.now.homes.now in
        let e = expr.Bin op.Mul first.now second.now at in
        FindsActs (HasRow home target.now.size target.now.to.now e) result }
{
    match product_row(target, first, second) {
        None => None,
        Some(row) => Some(acts_in(row)),
    }
}

/// The variables of two words, in RAX and RDX.
#[derive(Clone, Copy)]
pub(crate) struct Words {
    pub(crate) first: Option<Pinned>,
    pub(crate) second: Option<Pinned>,
}

fn words_of(homes: &Homes, size: Size, first: &Lval, second: &Lval) -> Option<Words>
    ensures { let home = homes_of homes.now in
        FindsOr result (AreTwoWords home size first.now second.now)
        (NeverTwoWords home size first.now second.now) }
{
    if !is_long(size) {
        return None;
    }
    let one = word_result(homes, size, first)?;
    let other = word_result(homes, size, second)?;
    Some(Words {
        first: one,
        second: other,
    })
}

/// The operands of a division.
#[derive(Clone, Copy)]
pub(crate) struct Three {
    pub(crate) high: Operand,
    pub(crate) low: Operand,
    pub(crate) by: Operand,
}

fn three_of(homes: &Homes, size: Size, high: &Expr, low: &Expr, by: &Expr) -> Option<Three>
    ensures { let home = homes_of homes.now in
        FindsOr result (AreThree home size high.now low.now by.now)
        (NeverThree home size high.now low.now by.now) }
{
    let high = operand_of(homes, size, high)?;
    let low = operand_of(homes, size, low)?;
    let by = operand_of(homes, size, by)?;
    if is_imm(by.arg) {
        return None;
    }
    Some(Three { high, low, by })
}

/// Whether the quotient stands nowhere in the high word and in the divisor, and the remainder
/// nowhere in the divisor.
fn are_apart(words: Words, operands: Three) -> bool
    ensures { result
        ≡ divided_apart words.first words.second operands.high.arg operands.by.arg }
{
    is_apart(words.first, operands.high.arg)
        && is_apart(words.first, operands.by.arg)
        && is_apart(words.second, operands.by.arg)
}

/// The low word to RAX, then the high one to RDX, and the division.
#[tactic(auto, using(crate::proofs::ProductLemmas::divide_items))]
fn divided(size: Size, words: Words, operands: Three) -> Acts
    ensures actions { let high = operands.high.arg in
        actions_of result
        ≡ wide.divide_two_code size words.first words.second high operands.low.arg
        operands.by.arg }
    ensures items { items_of result
        ≡ wide.divide_two_shown (leaks_of operands.high.leaks) (leaks_of operands.low.leaks)
        (leaks_of operands.by.leaks) }
{
    let between = count(operands.high.leaks);
    let before = between + count(operands.low.leaks);
    let low = Act {
        action: Action::Mov(size, Arg::At(Reg::Rax, words.first), operands.low.arg),
        shown: Shown {
            first: told(operands.low.leaks, between),
            second: None,
        },
    };
    let high = Act {
        action: Action::Mov(size, Arg::At(Reg::Rdx, words.second), operands.high.arg),
        shown: Shown {
            first: told(operands.high.leaks, 0),
            second: None,
        },
    };
    let divide = Act {
        action: Action::Wide(Wide::Div, size, words.first, words.second, operands.by.arg),
        shown: Shown {
            first: told(operands.by.leaks, before),
            second: None,
        },
    };
    Acts {
        before: Some(low),
        between: Some(high),
        last: divide,
        divided: Some(numbers_behind(before + count(operands.by.leaks))),
    }
}

/// DIV of two words by one.
pub(crate) fn division_row(homes: &Homes, size: Size, parts: &TwoThree<'_>) -> Option<Acts>
    ensures { let home = homes_of homes.now in
        let q = parts.now.first.now in
        let r = parts.now.second.now in
        FindsActs (IsLongDivision home size q r parts.now.high.now parts.now.low.now
        parts.now.by.now) result }
{
    let words = words_of(homes, size, parts.first, parts.second)?;
    let operands = three_of(homes, size, parts.high, parts.low, parts.by)?;
    if !are_apart(words, operands) {
        return None;
    }
    Some(divided(size, words, operands))
}
