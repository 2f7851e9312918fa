//! Facts behind single statements.

ghost use Rattle.std.specs.Prelude.{◌≡◌, ◌++◌, ◌∷◌, [], OnOk};
ghost use Rattle.jz_tree.specs.Span.{Span};
ghost use Rattle.jz_facts.specs.Holding.{does};
ghost use Rattle.jz_fact_sets.specs.Kept.{AreDifferent, given_of, facts_of};
ghost use Rattle.jz_test_facts.specs.Comparing.{AreWords};
ghost use Rattle.jz_block_facts.specs.Pieces.{answered, operation_of};

use jz_fact_sets::{FactSet, Given};
use jz_fact_writes::{after_assignment, after_instruction};
use jz_test_facts::after_test;
use jz_tree::{BinOp, Expr, Lval, Rhs, Seq};
use std::alloc::AllocError;

/// Behind an assignment. A call is followed nowhere.
pub fn after_single<'a>(
    given: &Given,
    set: &mut FactSet<'a>,
    to: &'a Seq<Lval>,
    op: Option<BinOp>,
    rhs: &Rhs,
    cond: &Option<Expr>,
) -> Result<(), AllocError>
    requires { AreDifferent given.now.params }
    ensures below { OnOk result (set.new.below.items ≡ set.old.below.items) }
    ensures facts { OnOk result ((at : Span) → facts_of given.now set.new
        ≡ does (given_of given.now) (operation_of to.now op rhs.now cond.now at)
        (facts_of given.now set.old)) }
{
    match rhs {
        Rhs::Value(e) => {
            after_assignment(given, set, to, op, e, cond)?;
            Ok(())
        }
        Rhs::Call(_, _, _) => Ok(()),
        Rhs::Intrinsic(name, args, _) => match op {
            Some(_) => Ok(()),
            None => match cond {
                Some(_) => Ok(()),
                None => {
                    after_instruction(set, to, name, args)?;
                    Ok(())
                }
            },
        },
    }
}

/// Opens a table for an arm behind a test with its answer.
pub fn open_arm<'a>(
    given: &Given,
    set: &mut FactSet<'a>,
    cond: &'a Expr,
    answer: bool,
) -> Result<(), AllocError>
    requires { AreWords given.now.constants }
    ensures below { OnOk result (set.new.below.items
        ≡ set.old.below.items ++ set.old.top ∷ []) }
    ensures facts { OnOk result (facts_of given.now set.new
        ≡ answered given.now cond.now answer (facts_of given.now set.old)) }
{
    set.open()?;
    after_test(given, set, cond, answer)?;
    Ok(())
}
