//! The arms of a choice, and what a call runs.

ghost use Rattle.std.specs.Prelude.{◌≡◌, ◌-◌, if◌then◌else◌};
ghost use Rattle.std.specs.Option.{option_copied};
ghost use Rattle.jz_interp.specs.InnerCalls.{called_function};

use crate::code::Code;
use jz_tree::{BinOp, Expr, Fun, Seq, Stmt, Text};

/// The arm of a test's answer.
pub fn arm<'a>(answer: bool, holds: &'a Seq<Stmt>, other: &'a Seq<Stmt>) -> &'a Seq<Stmt>
    ensures { result.now ≡ (if answer then holds.now else other.now) }
{
    if answer { holds } else { other }
}

/// The function that a call runs, where calls may be so deep; none where the call has an operation
/// or a condition.
pub fn callee_of<'a>(
    code: &Code<'a>,
    depth: usize,
    op: Option<BinOp>,
    name: &Text,
    cond: &Option<Expr>,
) -> Option<&'a Fun>
    ensures { option_copied result ≡ called_function code.now.funs.now depth op name.now cond.now }
{
    if depth == 0 {
        return None;
    }
    match op {
        Some(_) => None,
        None => match cond {
            Some(_) => None,
            None => code.named(name),
        },
    }
}
