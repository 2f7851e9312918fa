//! What is told of a variable, beside what is known of it.

ghost use Rattle.std.specs.Prelude.{◌≡◌, OnOk};
ghost use Rattle.jz_terms.specs.Terms.{term_of};
ghost use Rattle.jz_facts.specs.Tests.{◌and◌};
ghost use Rattle.jz_fact_sets.specs.declared.given.Given.{Given};
ghost use Rattle.jz_fact_sets.specs.Kept.{facts_of};
ghost use Rattle.jz_fact_steps.specs.Telling as telling;

use jz_fact_readings::Times;
use jz_fact_sets::{FactSet, Knowledge, known_at};
use jz_layers::Named;
use jz_tree::{Expr, Var};
use std::alloc::AllocError;

fn least_of_some(a: Option<u64>, b: Option<u64>) -> Option<u64>
    ensures { result ≡ telling.least_of_some a b }
{
    match a {
        None => b,
        Some(a) => match b {
            None => Some(a),
            Some(b) => Some(if a <= b { b } else { a }),
        },
    }
}

fn most_of_some(a: Option<u64>, b: Option<u64>) -> Option<u64>
    ensures { result ≡ telling.most_of_some a b }
{
    match a {
        None => b,
        Some(a) => match b {
            None => Some(a),
            Some(b) => Some(if a <= b { a } else { b }),
        },
    }
}

fn times_of_some(a: Option<Times>, b: Option<Times>) -> Option<Times>
    ensures { result ≡ telling.times_of_some a b }
{
    match a {
        None => b,
        Some(a) => match b {
            None => Some(a),
            Some(b) => Some(if a.value() <= b.value() { b } else { a }),
        },
    }
}

/// What is known by one of two.
pub fn join(a: Knowledge, b: Knowledge) -> Knowledge
    ensures { result ≡ telling.join a b }
{
    Knowledge {
        set: a.set || b.set,
        least: least_of_some(a.least, b.least),
        most: most_of_some(a.most, b.most),
        times: times_of_some(a.times, b.times),
        under: a.under | b.under,
        is: a.is | b.is,
    }
}

fn tell_variable<'a>(set: &mut FactSet<'a>, var: &'a Var, told: Knowledge) -> Result<(), AllocError>
    ensures below { OnOk result (set.new.below.items ≡ set.old.below.items) }
    ensures told { OnOk result ((g : Given) → facts_of g set.new
        ≡ (facts_of g set.old and telling.of_variable g var.now told)) }
{
    let named = Named::of(var);
    let old = known_at(set, named);
    set.put(named, join(old, told))?;
    Ok(())
}

/// Adds what is told of an expression, if it is a variable.
pub fn tell<'a>(set: &mut FactSet<'a>, e: &'a Expr, told: Knowledge) -> Result<(), AllocError>
    ensures below { OnOk result (set.new.below.items ≡ set.old.below.items) }
    ensures told { OnOk result ((g : Given) → facts_of g set.new
        ≡ (facts_of g set.old and telling.of_term g (term_of e.now) told)) }
{
    match e {
        Expr::Num(_, _) => Ok(()),
        Expr::Bool(_, _) => Ok(()),
        Expr::Var(var) => {
            tell_variable(set, var, told)?;
            Ok(())
        }
        Expr::Cell(_, _) => Ok(()),
        Expr::Load(_) => Ok(()),
        Expr::Neg(_, _) => Ok(()),
        Expr::Not(_, _) => Ok(()),
        Expr::Cast { .. } => Ok(()),
        Expr::Bin(_, _, _, _) => Ok(()),
    }
}
