//! Conditions of single statements and of tests.

ghost use Rattle.std.specs.Prelude.{◌≡◌, OnOk, IfOk, IfErr, None, Some};
ghost use Rattle.jz_tree.specs.Failures.{IfRefused};
ghost use Rattle.jz_tree.specs.Span.{Span as Where};
ghost use Rattle.jz_facts.specs.Holding.{does};
ghost use Rattle.jz_fact_sets.specs.Kept.{AreDifferent, given_of, facts_of};
ghost use Rattle.jz_block_facts.specs.Pieces.{operation_of};
ghost use Rattle.jz_alarms.specs.Conditions as conditions;
ghost use Rattle.jz_asked.specs.Asked.{alarm_of, found_of};

use jz_asked::{Alarm, asks_assignment, asks_instruction, asks_test};
use jz_block_facts::after_single;
use jz_fact_sets::{FactSet, Given, Saying};
use jz_tree::{BinOp, Expr, Failure, Lval, Rhs, Seq};
use std::alloc::AllocError;

/// An alarm refuses.
pub(crate) fn refuse(found: Option<Alarm>) -> Result<(), Failure<Alarm>>
    ensures none { OnOk result (found ≡ None) }
    ensures some { IfErr result (λ failure. IfRefused failure (λ alarm. found ≡ Some alarm)) }
{
    match found {
        None => Ok(()),
        Some(alarm) => Err(Failure::Refused(alarm)),
    }
}

/// The first condition of an assignment that the facts don't give. A call has none.
fn asked_of(
    given: &Given,
    set: &FactSet<'_>,
    to: &Seq<Lval>,
    op: Option<BinOp>,
    rhs: &Rhs,
    cond: &Option<Expr>,
) -> Result<Option<Alarm>, AllocError>
    ensures { IfOk result (λ found. (at : Where) → found_of found
        ≡ conditions.asks_operation (given_of given.now)
        (operation_of to.now op rhs.now cond.now at) (facts_of given.now set.now)) }
{
    let alloc = set.allocator();
    let says = Saying { given, set };
    match rhs {
        Rhs::Value(e) => {
            let found = asks_assignment(alloc, says, to, op, e, cond)?;
            Ok(found)
        }
        Rhs::Call(_, _, _) => Ok(None),
        Rhs::Intrinsic(name, args, span) => match op {
            Some(_) => Ok(None),
            None => match cond {
                Some(_) => Ok(None),
                None => {
                    let found = asks_instruction(alloc, says, to, name, args, *span)?;
                    Ok(found)
                }
            },
        },
    }
}

/// The conditions of an assignment, and the facts behind it.
pub(crate) fn ask_single<'a>(
    given: &Given,
    set: &mut FactSet<'a>,
    to: &'a Seq<Lval>,
    op: Option<BinOp>,
    rhs: &Rhs,
    cond: &Option<Expr>,
) -> Result<(), Failure<Alarm>>
    requires { AreDifferent given.now.params }
    ensures below { OnOk result (set.new.below.items ≡ set.old.below.items) }
    ensures none { OnOk result ((at : Where) → conditions.asks_operation (given_of given.now)
        (operation_of to.now op rhs.now cond.now at) (facts_of given.now set.old) ≡ None) }
    ensures facts { OnOk result ((at : Where) → facts_of given.now set.new
        ≡ does (given_of given.now) (operation_of to.now op rhs.now cond.now at)
        (facts_of given.now set.old)) }
    ensures some { IfErr result (λ failure. IfRefused failure (λ alarm. (at : Where)
        → conditions.asks_operation (given_of given.now)
        (operation_of to.now op rhs.now cond.now at) (facts_of given.now set.old)
        ≡ Some (alarm_of alarm))) }
{
    let found = asked_of(given, set, to, op, rhs, cond)?;
    refuse(found)?;
    after_single(given, set, to, op, rhs, cond)?;
    Ok(())
}

/// The conditions of a test.
pub(crate) fn ask_test(given: &Given, set: &FactSet<'_>, cond: &Expr) -> Result<(), Failure<Alarm>>
    ensures none { OnOk result ((at : Where) → conditions.asks_test (given_of given.now)
        (record { cond = cond.now; at = at }) (facts_of given.now set.now) ≡ None) }
    ensures some { IfErr result (λ failure. IfRefused failure (λ alarm. (at : Where)
        → conditions.asks_test (given_of given.now) (record { cond = cond.now; at = at })
        (facts_of given.now set.now) ≡ Some (alarm_of alarm))) }
{
    let says = Saying { given, set };
    let found = asks_test(set.allocator(), says, cond)?;
    refuse(found)?;
    Ok(())
}
