//! How the first operand comes to the destination.

ghost use Rattle.std.specs.Prelude.{◌≡◌, ◌≤◌, None};
ghost use Rattle.jz_homes.specs.Operands.{count_of};
ghost use Rattle.jz_row_operations.specs.Table.{brought};
ghost use Rattle.jz_row_operations.specs.Lowering.{numbers_from};
ghost use Rattle.jz_operands.specs.TableHomes.{leaks_of};
ghost use Rattle.jz_rows.specs.Refusals.{FindsOr};
ghost use Rattle.jz_rows.specs.Rows.{nth_of};
ghost use Rattle.jz_rows.specs.Found.{IsBrought};

use crate::args::{is_free, same_arg};
use crate::row::{Act, Shown};
use jz_operands::{Leaks, Operand};
use jz_operations::{Action, Arg};
use jz_tree::Size;

/// The copy before an action, the second operand, and the numbers that the action shows.
#[derive(Clone, Copy)]
pub struct Brought {
    pub before: Option<Act>,
    pub second: Arg,
    pub shown: Shown,
}

/// Where there is no second operand.
pub const NOTHING: Operand = Operand {
    arg: Arg::Imm(0),
    leaks: Leaks::Silent,
};

/// The place of the number that is shown of a part, so many being leaked before it.
pub fn told(leaks: Leaks, before: u64) -> Option<u64>
    ensures { nth_of result ≡ numbers_from (leaks_of leaks) before }
{
    match leaks {
        Leaks::Silent => None,
        Leaks::Hidden => None,
        Leaks::Told => Some(before),
    }
}

/// How many numbers a part leaks.
pub fn count(leaks: Leaks) -> u64
    ensures is { result ≡ count_of (leaks_of leaks) }
    ensures most { result ≤ 1 }
{
    match leaks {
        Leaks::Silent => 0,
        Leaks::Hidden => 1,
        Leaks::Told => 1,
    }
}

/// The copy of an operand to the destination, with the place of the number that it shows.
fn copy_to(size: Size, to: Arg, from: Arg, number: Option<u64>) -> Act
    ensures action { result.action ≡ Action.Mov size to from }
    ensures first { result.shown.first ≡ number }
    ensures second { result.shown.second ≡ None }
{
    Act {
        action: Action::Mov(size, to, from),
        shown: Shown {
            first: number,
            second: None,
        },
    }
}

/// The first operand is the destination; or the operands may be swapped, and the second one is; or
/// the destination stands nowhere in the second one, and the first is copied to it.
#[tactic(auto, using(crate::proofs::BringLemmas::in_place, crate::proofs::BringLemmas::swapped, crate::proofs::BringLemmas::copied))]
pub fn bring(swaps: bool, size: Size, to: Arg, first: Operand, second: Operand) -> Option<Brought>
    ensures { FindsOr result (IsBrought swaps size to first second)
        (brought swaps size to first.arg second.arg ≡ None) }
{
    let one = told(first.leaks, 0);
    let other = told(second.leaks, count(first.leaks));
    if same_arg(to, first.arg) {
        return Some(Brought {
            before: None,
            second: second.arg,
            shown: Shown {
                first: one,
                second: other,
            },
        });
    }
    if swaps && same_arg(to, second.arg) {
        return Some(Brought {
            before: None,
            second: first.arg,
            shown: Shown {
                first: other,
                second: one,
            },
        });
    }
    if !is_free(to, second.arg) {
        return None;
    }
    let copy = copy_to(size, to, first.arg, one);
    Some(Brought {
        before: Some(copy),
        second: second.arg,
        shown: Shown {
            first: other,
            second: None,
        },
    })
}
