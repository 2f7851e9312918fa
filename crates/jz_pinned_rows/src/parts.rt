//! Parts that several rows have.

ghost use Rattle.std.specs.Prelude.{◌≡◌, ◌&&◌, IsTrue, IsFalse, ◌↔◌, All};
ghost use Rattle.jz_encodable.specs.Encodable.{CanEncode};
ghost use Rattle.jz_flag_rows.specs.Wide.{IsLong};
ghost use Rattle.jz_pinned_rows.specs.TableHomes.{homes_of};
ghost use Rattle.jz_pinned_rows.specs.Refusals.{FindsOr};
ghost use Rattle.jz_pinned_rows.specs.Rows.{actions_of, AreOperands, NeverOperands};
ghost use Rattle.jz_rows.specs.Rows.{actions_in};
ghost use Rattle.jz_pinned_rows.specs.Rows.{AreWords, NeverWords};

use crate::row::Acts;
use jz_encodable::can_encode;
use jz_operands::{Homes, Operand, operand_of};
use jz_rows::{Act, is_imm};
use jz_tree::{Expr, Size};

/// Two operands, from left to right.
#[derive(Clone, Copy)]
pub struct Operands {
    pub first: Operand,
    pub second: Operand,
}

/// Two operands of that size.
pub fn operands_of(homes: &Homes, size: Size, first: &Expr, second: &Expr) -> Option<Operands>
    ensures { let home = homes_of homes.now in
        FindsOr result (AreOperands home size first.now second.now)
        (NeverOperands home size first.now second.now) }
{
    let x = operand_of(homes, size, first)?;
    let y = operand_of(homes, size, second)?;
    Some(Operands {
        first: x,
        second: y,
    })
}

/// Two operands of that size, the second one no number.
pub fn words_of(homes: &Homes, size: Size, first: &Expr, second: &Expr) -> Option<Operands>
    ensures { let home = homes_of homes.now in
        FindsOr result (AreWords home size first.now second.now)
        (NeverWords home size first.now second.now) }
{
    let both = operands_of(homes, size, first, second)?;
    if is_imm(both.second.arg) {
        return None;
    }
    Some(both)
}

/// Whether a size has 32 bits or more.
pub fn is_long(size: Size) -> bool
    ensures yes { IsTrue result → IsLong size }
    ensures no { IsFalse result → IsLong size → ⊥ }
{
    match size {
        Size::S8 => false,
        Size::S16 => false,
        Size::S32 => true,
        Size::S64 => true,
    }
}

fn can_encode_if(act: Option<Act>) -> bool
    ensures { IsTrue result ↔ All CanEncode (actions_in act) }
{
    match act {
        None => true,
        Some(act) => can_encode(act.action),
    }
}

fn all_three(first: bool, second: bool, third: bool) -> bool
    ensures { result ≡ ((first && second) && third) }
{
    first && second && third
}

/// Whether each action can be encoded.
pub fn can_encode_all(acts: Acts) -> bool
    ensures { IsTrue result ↔ All CanEncode (actions_of acts) }
{
    let before = can_encode_if(acts.before);
    let between = can_encode_if(acts.between);
    let last = can_encode(acts.last.action);
    all_three(before, between, last)
}
