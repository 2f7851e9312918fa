//! Conditions, of which those that are inline have one answer.

ghost use Rattle.std.specs.Prelude.{◌≡◌, ◌↔◌, true, IfOk};
ghost use Rattle.jz_tree.specs.Failures.{IfAnswered};
ghost use Rattle.jz_unrolling_values.specs.InlineNames.{names_in};
ghost use Rattle.jz_unrolling_values.specs.Numbers.{numbers_in};
ghost use Rattle.jz_unrolling_values.specs.Parts.{IsTest, IsNever, IsLoopTest};
ghost use Rattle.jz_unrolling_values.specs.Refusals.{OrElse, NeverTests, NeverLoops};

use crate::expressions::{Values, part_of};
use crate::parts::Part;
use jz_integers::Constant;
use jz_tree::{Expr, Failure, Span};
use std::alloc::AllocError;

/// What a condition is.
#[derive(Drop)]
pub enum Test {
    /// Inline, with this answer.
    Always(bool, Span),
    /// Not inline; its inline parts are their values.
    Asked(Expr),
}

/// The condition as it is where these numbers are known. Refused where it has no answer.
pub fn test_of(values: &Values<'_>, cond: &Expr) -> Result<Test, Failure<Span>>
    ensures { let names = names_in values.now.vars.now in
        let e = numbers_in values.now.known.now in
        IfAnswered result (OrElse (IsTest names e cond.now) (NeverTests names e cond.now)) }
{
    match part_of(values, cond)? {
        Part::Inline(Some(Constant::Bool(answer)), span) => Ok(Test::Always(answer, span)),
        Part::Inline(Some(Constant::Int(_)), span) => Err(Failure::Refused(span)),
        Part::Inline(None, span) => Err(Failure::Refused(span)),
        Part::Plain(cond) => Ok(Test::Asked(cond)),
    }
}

/// Whether the condition is inline and false where these numbers are known.
pub fn is_never(values: &Values<'_>, cond: &Expr) -> Result<bool, AllocError>
    ensures { let e = numbers_in values.now.known.now in
        IfOk result (λ never. never ≡ true ↔ IsNever e cond.now) }
{
    match test_of(values, cond) {
        Ok(Test::Always(answer, _)) => Ok(!answer),
        Ok(Test::Asked(_)) => Ok(false),
        Err(Failure::Refused(_)) => Ok(false),
        Err(Failure::OutOfMemory) => Err(AllocError),
    }
}

/// The test of a `while` that stays: one that is inline is true. Refused where it has no answer, and
/// where that is false.
pub fn loop_test(values: &Values<'_>, cond: &Expr) -> Result<Expr, Failure<Span>>
    ensures { let names = names_in values.now.vars.now in
        let e = numbers_in values.now.known.now in
        IfAnswered result (OrElse (IsLoopTest names e cond.now) (NeverLoops names e cond.now)) }
{
    match test_of(values, cond)? {
        Test::Asked(cond) => Ok(cond),
        Test::Always(answer, span) => {
            if answer {
                Ok(Expr::Bool(true, span))
            } else {
                Err(Failure::Refused(span))
            }
        }
    }
}
