//! The first condition of an operation, of a test and of the results.

ghost use Rattle.std.specs.Prelude.{◌≡◌, IfOk, Some};
ghost use Rattle.std.specs.Option.{option_or};
ghost use Rattle.jz_tree.specs.Span.{Span as AnySpan};
ghost use Rattle.jz_meaning.specs.Assignments as assignments;
ghost use Rattle.jz_meaning.specs.Values.{own_size};
ghost use Rattle.jz_meaning.specs.Statements.{assign, instruction};
ghost use Rattle.jz_inside.specs.Said.{given_in, facts_in};
ghost use Rattle.jz_alarms.specs.Conditions as conditions;
ghost use Rattle.jz_asked.specs.Asked.{found_of};
ghost use Rattle.jz_asked.specs.InnerAsked.{shown};

use crate::accesses::asks_division;
use crate::alarms::{Alarm, Asked, first_of, owned};
use crate::cells::asks_variable;
use crate::lefts::{asks_each, asks_if, asks_lefts, asks_old};
use crate::sizes::or_64;
use crate::terms::asks;
use jz_fact_sets::Saying;
use jz_meaning::own_size;
use jz_run_assign::{left_sizes, whole_of};
use jz_run_instruct::intrinsic_size;
use jz_tree::{BinOp, Expr, Instance, Lval, Seq, Span, Text, Var, spelled};
use std::alloc::{AllocError, Global};
use x64_insn::Size;

/// The size of an assignment.
fn size_of(to: &Seq<Lval>, e: &Expr) -> Option<Size>
    ensures { result ≡ option_or (assignments.left_sizes to.now) (own_size e.now) }
{
    left_sizes(to).or(own_size(e))
}

/// Of an assignment of a whole right side: of this, of the condition, of the old value, and of the
/// left sides.
fn asks_whole<'e>(
    alloc: Global,
    says: Saying<'_, '_>,
    to: &'e Seq<Lval>,
    e: &'e Expr,
    cond: &'e Option<Expr>,
) -> Result<Option<Asked<'e>>, AllocError>
    ensures { IfOk result (λ found. shown found ≡ conditions.asks_assign (given_in says.entry)
        (facts_in says.entry) to.now (Some e.now) cond.now) }
{
    let size = size_of(to, e);
    let value = asks(alloc, says, size, e)?;
    let condition = asks_if(alloc, says, cond)?;
    let old = asks_old(alloc, says, cond, to)?;
    let lefts = asks_lefts(alloc, says, size, to)?;
    Ok(first_of(value, first_of(condition, first_of(old, lefts))))
}

/// The first condition of an assignment that the facts don't give.
pub fn asks_assignment(
    alloc: Global,
    says: Saying<'_, '_>,
    to: &Seq<Lval>,
    op: Option<BinOp>,
    e: &Expr,
    cond: &Option<Expr>,
) -> Result<Option<Alarm>, AllocError>
    ensures { IfOk result (λ found. (at : AnySpan) → found_of found
        ≡ conditions.asks_operation (given_in says.entry) (assign to.now op e.now cond.now at)
        (facts_in says.entry)) }
{
    match op {
        None => {
            let found = asks_whole(alloc, says, to, e, cond)?;
            let alarm = owned(found)?;
            Ok(alarm)
        }
        Some(op) => {
            let whole = whole_of(alloc, to, op, e)?;
            match whole {
                None => Ok(None),
                Some(right) => {
                    let found = asks_whole(alloc, says, to, &right, cond)?;
                    let alarm = owned(found)?;
                    Ok(alarm)
                }
            }
        }
    }
}

fn asks_instance<'e>(
    alloc: Global,
    says: Saying<'_, '_>,
    instance: Instance,
    to: &'e Seq<Lval>,
    args: &'e Seq<Expr>,
    span: Span,
) -> Result<Option<Asked<'e>>, AllocError>
    ensures { IfOk result (λ found. shown found
        ≡ conditions.asks_instruction (given_in says.entry) (facts_in says.entry)
        (Some instance) to.now args.now span) }
{
    let operands = args.as_slice();
    let size = intrinsic_size(instance, to, operands);
    let each = asks_each(alloc, says, size, operands)?;
    let division = asks_division(says, instance.name, or_64(size), operands, span);
    let lefts = asks_lefts(alloc, says, size, to)?;
    Ok(first_of(each, first_of(division, lefts)))
}

/// The first condition of an instruction, which is named at this place, that the facts don't give.
pub fn asks_instruction(
    alloc: Global,
    says: Saying<'_, '_>,
    to: &Seq<Lval>,
    name: &Text,
    args: &Seq<Expr>,
    span: Span,
) -> Result<Option<Alarm>, AllocError>
    ensures { IfOk result (λ found. found_of found
        ≡ conditions.asks_operation (given_in says.entry)
        (instruction to.now name.now args.now span) (facts_in says.entry)) }
{
    match spelled(name.as_str()) {
        None => Ok(None),
        Some(instance) => {
            let found = asks_instance(alloc, says, instance, to, args, span)?;
            let alarm = owned(found)?;
            Ok(alarm)
        }
    }
}

/// The first condition of a test that the facts don't give.
pub fn asks_test(
    alloc: Global,
    says: Saying<'_, '_>,
    cond: &Expr,
) -> Result<Option<Alarm>, AllocError>
    ensures { IfOk result (λ found. (at : AnySpan) → found_of found
        ≡ conditions.asks_test (given_in says.entry) (record { cond = cond.now; at = at })
        (facts_in says.entry)) }
{
    let found = asks(alloc, says, None, cond)?;
    let alarm = owned(found)?;
    Ok(alarm)
}

/// The first result that the facts don't say to be set.
pub fn asks_results(says: Saying<'_, '_>, results: &Seq<Var>) -> Result<Option<Alarm>, AllocError>
    ensures { IfOk result (λ found. found_of found
        ≡ conditions.asks_results results.now (facts_in says.entry)) }
{
    for result in results.as_slice() {
        match asks_variable(says, result) {
            None => {}
            Some(found) => {
                let alarm = owned(Some(found))?;
                return Ok(alarm);
            }
        }
    }
    Ok(None)
}
