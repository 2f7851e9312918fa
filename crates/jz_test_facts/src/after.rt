//! Sets of facts behind tests.

ghost use Rattle.std.specs.Prelude.{◌≡◌, if◌then◌else◌, OnOk};
ghost use Rattle.std.specs.Option.{option_or};
ghost use Rattle.jz_terms.specs.Terms.{term_of, size_in};
ghost use Rattle.jz_facts.specs.Intervals.{size_or_64};
ghost use Rattle.jz_facts.specs.Tests as tests;
ghost use Rattle.jz_facts.specs.Tests.{◌and◌};
ghost use Rattle.jz_fact_sets.specs.Kept.{given_of, facts_of};
ghost use Rattle.jz_test_facts.specs.Comparing.{AreWords};

use crate::telling::{left_told, right_told, with_answer};
use jz_fact_sets::{FactSet, Given};
use jz_fact_steps::tell;
use jz_meaning::own_size;
use jz_tree::{BinOp, Expr};
use std::alloc::AllocError;
use x64_insn::Size;

/// The size that an expression has by itself.
fn size_by_itself(e: &Expr) -> Option<Size>
    ensures { result ≡ size_in (term_of e.now) }
{
    own_size(e)
}

fn or_64(size: Option<Size>) -> Size
    ensures { result ≡ size_or_64 size }
{
    match size {
        None => Size::S64,
        Some(size) => size,
    }
}

fn size_of_both(left: &Expr, right: &Expr) -> Size
    ensures { result ≡ size_or_64 (option_or (size_in (term_of left.now))
        (size_in (term_of right.now))) }
{
    let first = size_by_itself(left);
    let second = size_by_itself(right);
    or_64(first.or(second))
}

/// Adds what the answer of a comparison tells.
fn compared<'a>(
    given: &Given,
    set: &mut FactSet<'a>,
    op: BinOp,
    left: &'a Expr,
    right: &'a Expr,
) -> Result<(), AllocError>
    requires { AreWords given.now.constants }
    ensures below { OnOk result (set.new.below.items ≡ set.old.below.items) }
    ensures facts { OnOk result (facts_of given.now set.new ≡ (facts_of given.now set.old
        and tests.by_true (given_of given.now) op (facts_of given.now set.old)
        (size_or_64 (option_or (size_in (term_of left.now)) (size_in (term_of right.now))))
        (term_of left.now) (term_of right.now))) }
{
    let size = size_of_both(left, right);
    let first = left_told(given, set, size, op, right);
    let second = right_told(given, set, size, op, left);
    tell(set, left, first)?;
    tell(set, right, second)?;
    Ok(())
}

/// Adds what an answer of a test tells: of the comparison that it is, under any number of `!`.
pub fn after_test<'a>(
    given: &Given,
    set: &mut FactSet<'a>,
    test: &'a Expr,
    answer: bool,
) -> Result<(), AllocError>
    requires { AreWords given.now.constants }
    ensures below { OnOk result (set.new.below.items ≡ set.old.below.items) }
    ensures facts { OnOk result (facts_of given.now set.new ≡ (facts_of given.now set.old
        and tests.adds (given_of given.now) (facts_of given.now set.old) (term_of test.now)
        answer)) }
{
    let mut e = test;
    let mut is = answer;
    while let Expr::Not(inner, _) = e {
        e = inner.get();
        is = !is;
    }
    match e {
        Expr::Num(_, _) => Ok(()),
        Expr::Bool(_, _) => Ok(()),
        Expr::Var(_) => Ok(()),
        Expr::Cell(_, _) => Ok(()),
        Expr::Load(_) => Ok(()),
        Expr::Neg(_, _) => Ok(()),
        Expr::Not(_, _) => unreachable!(),
        Expr::Cast { .. } => Ok(()),
        Expr::Bin(op, left, right, _) => {
            compared(given, set, with_answer(*op, is), left.get(), right.get())?;
            Ok(())
        }
    }
}
