//! Sets of facts behind instructions.

ghost use Rattle.std.specs.Prelude.{◌≡◌, ◌<◌, OnOk, Some, false, drop, length, get_or};
ghost use Rattle.jz_tree.specs.Span.{Span};
ghost use Rattle.jz_meaning.specs.Statements as statements;
ghost use Rattle.jz_facts.specs.Facts.{Facts};
ghost use Rattle.jz_facts.specs.Holding as holding;
ghost use Rattle.jz_fact_sets.specs.declared.given.Given as code;
ghost use Rattle.jz_fact_sets.specs.Kept.{given_of, facts_of};
ghost use Rattle.jz_fact_writes.specs.Instructing.{shown, got, next_written};
ghost use Rattle.jz_fact_writes.specs.Writing.{StandsFor};

use crate::results::{count_of, values_of};
use crate::writes::{Gets, write};
use jz_fact_sets::FactSet;
use jz_tree::{Expr, Instance, Lval, Seq, Text, spelled};
use std::alloc::AllocError;

fn gets_of(has_value: bool) -> Gets
    ensures { (g : code.Given) (s : Facts) → StandsFor g s result (got has_value) }
{
    if has_value {
        Gets::Value
    } else {
        Gets::Nothing
    }
}

fn value_at(values: &[bool], index: usize) -> bool
    requires { index < length values.now }
    ensures { result ≡ get_or values.now index false }
{
    values[index]
}

/// The write of the result at a place, if there is one.
fn write_next<'a>(
    set: &mut FactSet<'a>,
    left: &'a Lval,
    values: &[bool],
    index: usize,
) -> Result<(), AllocError>
    ensures below { OnOk result (set.new.below.items ≡ set.old.below.items) }
    ensures facts { OnOk result ((g : code.Given) (s : Facts) → facts_of g set.new
        ≡ next_written (given_of g) s left.now (drop index values.now) (facts_of g set.old)) }
{
    if index < values.len() {
        write(set, left, gets_of(value_at(values, index)))?;
        return Ok(());
    }
    Ok(())
}

/// The writes of results, as many as there are.
fn write_values<'a>(
    set: &mut FactSet<'a>,
    to: &'a Seq<Lval>,
    values: &[bool],
) -> Result<(), AllocError>
    ensures below { OnOk result (set.new.below.items ≡ set.old.below.items) }
    ensures facts { OnOk result ((g : code.Given) (s : Facts) → facts_of g set.new
        ≡ holding.all_written (given_of g) s to.now (shown values.now) (facts_of g set.old)) }
{
    let mut index = 0;
    for left in to.as_slice() {
        write_next(set, left, values, index)?;
        index += 1;
    }
    Ok(())
}

fn by_instance<'a>(
    set: &mut FactSet<'a>,
    instance: Instance,
    to: &'a Seq<Lval>,
    args: &Seq<Expr>,
) -> Result<(), AllocError>
    ensures below { OnOk result (set.new.below.items ≡ set.old.below.items) }
    ensures facts { OnOk result ((g : code.Given) → facts_of g set.new
        ≡ holding.instructed (given_of g) (Some instance) to.now args.now (facts_of g set.old)) }
{
    let count = count_of(args.as_slice());
    let values = values_of(instance.name, count);
    write_values(set, to, values)?;
    Ok(())
}

/// Behind an instruction by its name.
pub fn after_instruction<'a>(
    set: &mut FactSet<'a>,
    to: &'a Seq<Lval>,
    name: &Text,
    args: &Seq<Expr>,
) -> Result<(), AllocError>
    ensures below { OnOk result (set.new.below.items ≡ set.old.below.items) }
    ensures facts { OnOk result ((g : code.Given) (at : Span) → facts_of g set.new
        ≡ holding.does (given_of g) (statements.instruction to.now name.now args.now at)
        (facts_of g set.old)) }
{
    match spelled(name.as_str()) {
        None => Ok(()),
        Some(instance) => {
            by_instance(set, instance, to, args)?;
            Ok(())
        }
    }
}
