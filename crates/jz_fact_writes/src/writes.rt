//! What a set of facts is behind the write to a left side.

ghost use Rattle.std.specs.Prelude.{◌≡◌, ◌<◌, ◌-◌, OnOk};
ghost use Rattle.jz_meaning.specs.Values.{ref_of};
ghost use Rattle.jz_terms.specs.Terms.{Term, term_of};
ghost use Rattle.x64_insn.specs.Size.{Size as AnySize};
ghost use Rattle.jz_facts.specs.Facts.{Facts};
ghost use Rattle.jz_facts.specs.Holding as holding;
ghost use Rattle.jz_fact_sets.specs.declared.given.Given as code;
ghost use Rattle.jz_fact_sets.specs.Kept.{given_of, facts_of};
ghost use Rattle.jz_fact_sets.specs.Renewing.{own};
ghost use Rattle.jz_fact_writes.specs.Writing.{StandsFor};
ghost use Rattle.jz_fact_writes.specs.Writing as writing;

use jz_fact_sets::{FactSet, Given, Knowledge, add_cell, renew};
use jz_meaning::{Kind, kind_of};
use jz_tree::{Expr, Lval, Seq, Var};
use std::alloc::AllocError;
use x64_insn::{Size, residue};

/// What a left side gets: nothing that is known, a value, or a word of which this is known.
#[derive(Clone, Copy)]
pub enum Gets {
    Nothing,
    Value,
    Word(Knowledge),
}

/// What is known of a variable of a kind that gets it.
fn gained(kind: Kind, gets: Gets) -> Knowledge
    ensures { (g : code.Given) (s : Facts) (v : holding.Gets) → StandsFor g s gets v
        → own g result ≡ holding.gained (given_of g) s kind v }
{
    match gets {
        Gets::Nothing => Knowledge::nothing(),
        Gets::Value => Knowledge::only_set(),
        Gets::Word(known) => match kind {
            Kind::Undeclared => Knowledge::only_set(),
            Kind::Int => Knowledge::only_set(),
            Kind::Bool => Knowledge::only_set(),
            Kind::Word(_) => known,
            Kind::Array(_, _) => Knowledge::only_set(),
        },
    }
}

/// A write to a cell: one at a written index is set.
fn write_cell<'a>(set: &mut FactSet<'a>, var: &'a Var, index: &Expr) -> Result<(), AllocError>
    ensures below { OnOk result (set.new.below.items ≡ set.old.below.items) }
    ensures facts { OnOk result ((g : code.Given) → facts_of g set.new
        ≡ holding.in_cell (ref_of var.now) (term_of index.now) (facts_of g set.old)) }
{
    match index {
        Expr::Num(n, _) => {
            add_cell(set, var, residue(Size::S64, *n).bits())?;
            Ok(())
        }
        Expr::Bool(_, _) => Ok(()),
        Expr::Var(_) => Ok(()),
        Expr::Cell(_, _) => Ok(()),
        Expr::Load(_) => Ok(()),
        Expr::Neg(_, _) => Ok(()),
        Expr::Not(_, _) => Ok(()),
        Expr::Cast { .. } => Ok(()),
        Expr::Bin(_, _, _, _) => Ok(()),
    }
}

/// The write to one left side.
pub fn write<'a>(set: &mut FactSet<'a>, to: &'a Lval, gets: Gets) -> Result<(), AllocError>
    ensures below { OnOk result (set.new.below.items ≡ set.old.below.items) }
    ensures facts { OnOk result ((g : code.Given) (s : Facts) (v : holding.Gets)
        → StandsFor g s gets v → facts_of g set.new
        ≡ holding.written (given_of g) s to.now v (facts_of g set.old)) }
{
    match to {
        Lval::Skip(_) => Ok(()),
        Lval::Var(var) => {
            renew(set, var, gained(kind_of(var), gets))?;
            Ok(())
        }
        Lval::Cell(var, index) => {
            write_cell(set, var, index.get())?;
            Ok(())
        }
        Lval::Store(_) => Ok(()),
    }
}

/// What the left side at a place gets: the last one the word, one before it a value.
fn at_place(index: usize, count: usize, known: Knowledge) -> Gets
    requires { index < count }
    ensures { result ≡ writing.at_place (count - index) known }
{
    if count - index == 1 {
        Gets::Word(known)
    } else {
        Gets::Value
    }
}

/// The writes to the left sides of an assignment in their order.
pub fn write_all<'a>(
    set: &mut FactSet<'a>,
    to: &'a Seq<Lval>,
    known: Knowledge,
) -> Result<(), AllocError>
    ensures below { OnOk result (set.new.below.items ≡ set.old.below.items) }
    ensures facts { OnOk result ((g : code.Given) (s : Facts) (z : AnySize) (t : Term)
        → own g known ≡ holding.of_word (given_of g) s z t → facts_of g set.new
        ≡ holding.all_written (given_of g) s to.now (holding.results z t to.now)
        (facts_of g set.old)) }
{
    let lefts = to.as_slice();
    let count = lefts.len();
    let mut index = 0;
    for left in lefts {
        write(set, left, at_place(index, count, known))?;
        index += 1;
    }
    Ok(())
}
