//! Sets of facts behind assignments.

ghost use Rattle.std.specs.Prelude.{◌≡◌, OnOk, Option, None, Some};
ghost use Rattle.std.specs.Option.{option_or};
ghost use Rattle.jz_tree.specs.declared.expr.Expr.{Expr as AnyExpr};
ghost use Rattle.jz_meaning.specs.Values.{own_size};
ghost use Rattle.jz_facts.specs.Intervals.{size_or_64};
ghost use Rattle.jz_tree.specs.Span.{Span};
ghost use Rattle.jz_meaning.specs.Assignments as assignments;
ghost use Rattle.jz_meaning.specs.Statements as statements;
ghost use Rattle.jz_facts.specs.Holding as holding;
ghost use Rattle.jz_fact_sets.specs.Kept.{given_of, facts_of, AreDifferent};

use crate::writes::write_all;
use indexmap::IndexMap;
use jz_fact_sets::{FactSet, Given, meet};
use jz_fact_steps::of_word;
use jz_meaning::own_size;
use jz_run_assign::{left_sizes, whole_of};
use jz_tree::{BinOp, Expr, Lval, Seq};
use std::alloc::AllocError;
use x64_insn::Size;

fn or_64(size: Option<Size>) -> Size
    ensures { result ≡ size_or_64 size }
{
    match size {
        None => Size::S64,
        Some(size) => size,
    }
}

/// The size of the word that an assignment gives.
fn size_of(to: &Seq<Lval>, e: &Expr) -> Size
    ensures { result ≡ size_or_64 (option_or (assignments.left_sizes to.now) (own_size e.now)) }
{
    let left = left_sizes(to);
    let right = own_size(e);
    or_64(left.or(right))
}

/// Behind an assignment of a whole right side.
pub fn assigned<'a>(
    given: &Given,
    set: &mut FactSet<'a>,
    to: &'a Seq<Lval>,
    e: &Expr,
) -> Result<(), AllocError>
    ensures below { OnOk result (set.new.below.items ≡ set.old.below.items) }
    ensures facts { OnOk result (facts_of given.now set.new
        ≡ holding.assigned (given_of given.now) to.now (Some e.now) None
        (facts_of given.now set.old)) }
{
    let size = size_of(to, e);
    let known = of_word(given, set, size, e);
    write_all(set, to, known)?;
    Ok(())
}

/// The same under a condition: what holds of both stays.
pub fn assigned_if<'a>(
    given: &Given,
    set: &mut FactSet<'a>,
    to: &'a Seq<Lval>,
    e: &Expr,
) -> Result<(), AllocError>
    requires { AreDifferent given.now.params }
    ensures below { OnOk result (set.new.below.items ≡ set.old.below.items) }
    ensures facts { OnOk result ((c : AnyExpr) → facts_of given.now set.new
        ≡ holding.assigned (given_of given.now) to.now (Some e.now) (Some c)
        (facts_of given.now set.old)) }
{
    set.open()?;
    assigned(given, set, to, e)?;
    let after = set.close();
    let before = IndexMap::new(set.allocator());
    meet(set, &after, &before)?;
    Ok(())
}

fn by_condition<'a>(
    given: &Given,
    set: &mut FactSet<'a>,
    to: &'a Seq<Lval>,
    e: &Expr,
    cond: &Option<Expr>,
) -> Result<(), AllocError>
    requires { AreDifferent given.now.params }
    ensures below { OnOk result (set.new.below.items ≡ set.old.below.items) }
    ensures facts { OnOk result (facts_of given.now set.new
        ≡ holding.assigned (given_of given.now) to.now (Some e.now) cond.now
        (facts_of given.now set.old)) }
{
    match cond {
        None => assigned(given, set, to, e),
        Some(_) => assigned_if(given, set, to, e),
    }
}

/// Behind an assignment: by its whole right side, under its condition.
pub fn after_assignment<'a>(
    given: &Given,
    set: &mut FactSet<'a>,
    to: &'a Seq<Lval>,
    op: Option<BinOp>,
    e: &Expr,
    cond: &Option<Expr>,
) -> Result<(), AllocError>
    requires { AreDifferent given.now.params }
    ensures below { OnOk result (set.new.below.items ≡ set.old.below.items) }
    ensures facts { OnOk result ((at : Span) → facts_of given.now set.new
        ≡ holding.does (given_of given.now) (statements.assign to.now op e.now cond.now at)
        (facts_of given.now set.old)) }
{
    match op {
        None => {
            by_condition(given, set, to, e, cond)?;
            Ok(())
        }
        Some(op) => {
            let whole = whole_of(set.allocator(), to, op, e)?;
            match whole {
                None => Ok(()),
                Some(right) => {
                    by_condition(given, set, to, &right, cond)?;
                    Ok(())
                }
            }
        }
    }
}
