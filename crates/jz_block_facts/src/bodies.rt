//! Facts of whole bodies.

ghost use Rattle.std.specs.Prelude.{◌≡◌, OnOk, IfOk};
ghost use Rattle.jz_runs.specs.Trees.{done};
ghost use Rattle.jz_meaning.specs.Runs.{statement_tree};
ghost use Rattle.jz_flow.specs.Flow.{After};
ghost use Rattle.jz_facts.specs.Along.{fact_steps};
ghost use Rattle.jz_layers.specs.Layered.{seen};
ghost use Rattle.jz_fact_sets.specs.Kept.{AreDifferent, given_of, facts_of};
ghost use Rattle.jz_test_facts.specs.Comparing.{AreWords};
ghost use Rattle.jz_terms.specs.Terms.{term_of};
ghost use Rattle.jz_facts.specs.Tests as tests;
ghost use Rattle.jz_facts.specs.Tests.{◌and◌};
ghost use Rattle.jz_block_facts.specs.Heads.{no_callees, plain_block, HasNoFor, AreHeads};
ghost use Rattle.jz_block_facts.specs.Heads.{IsLoop, IsHeadOf};

use crate::laying::lay;
use crate::walk::{walk_block, walk_statement};
use jz_fact_sets::{FactSet, Given, Table};
use jz_test_facts::after_test;
use jz_tree::{Expr, Seq, Stmt};
use std::alloc::AllocError;

/// Behind a statement of an expanded function, in which there is no `for`.
pub fn holds_after<'a>(
    given: &Given,
    set: &FactSet<'a>,
    stmt: &'a Stmt,
) -> Result<FactSet<'a>, AllocError>
    requires different { AreDifferent given.now.params }
    requires words { AreWords given.now.constants }
    requires plain { HasNoFor (statement_tree no_callees stmt.now done) }
    ensures { IfOk result (λ behind. After (fact_steps (given_of given.now))
        (statement_tree no_callees stmt.now done)
        (facts_of given.now set.now) (facts_of given.now behind)) }
{
    let mut behind = set.copy()?;
    let mut heads = Seq::new(set.allocator());
    walk_statement(given, &mut behind, &mut heads, 0, stmt)?;
    Ok(behind)
}

/// Behind a test of an expanded function that answered so.
pub fn holds_behind<'a>(
    given: &Given,
    set: &FactSet<'a>,
    test: &'a Expr,
    answer: bool,
) -> Result<FactSet<'a>, AllocError>
    requires { AreWords given.now.constants }
    ensures { IfOk result (λ behind. facts_of given.now behind
        ≡ (facts_of given.now set.now
        and tests.adds (given_of given.now) (facts_of given.now set.now)
        (term_of test.now) answer)) }
{
    let mut behind = set.copy()?;
    after_test(given, &mut behind, test, answer)?;
    Ok(behind)
}

/// The heads of the loops of statements of an expanded function, in which there is no `for`, one
/// table for each loop in the order of the text: what holds at its head where the table lies over
/// what comes in. The set is then as it was.
pub fn heads_of<'a>(
    given: &Given,
    set: &mut FactSet<'a>,
    stmts: &'a Seq<Stmt>,
) -> Result<Vec<Table<'a>>, AllocError>
    requires different { AreDifferent given.now.params }
    requires words { AreWords given.now.constants }
    requires plain { HasNoFor (plain_block stmts.now) }
    ensures below { OnOk result (set.new.below.items ≡ set.old.below.items) }
    ensures seen { OnOk result (seen set.new ≡ seen set.old) }
    ensures heads { IfOk result (λ heads. AreHeads given.now (plain_block stmts.now) 0
        heads.items (facts_of given.now set.old)) }
{
    let mut heads = Seq::new(set.allocator());
    set.open()?;
    walk_block(given, set, &mut heads, 0, stmts)?;
    set.close();
    Ok(heads.into_vec())
}

/// What holds at the head of a `while` of an expanded function, in which there is no `for`: the
/// greatest set of what comes in that each turn keeps.
pub fn at_head<'a>(
    given: &Given,
    set: &FactSet<'a>,
    stmt: &'a Stmt,
) -> Result<FactSet<'a>, AllocError>
    requires different { AreDifferent given.now.params }
    requires words { AreWords given.now.constants }
    requires plain { HasNoFor (statement_tree no_callees stmt.now done) }
    requires turns { IsLoop (statement_tree no_callees stmt.now done) }
    ensures { IfOk result (λ head. IsHeadOf given.now (statement_tree no_callees stmt.now done)
        (facts_of given.now set.now) (facts_of given.now head)) }
{
    let mut head = set.copy()?;
    let mut heads = Seq::new(set.allocator());
    head.open()?;
    walk_statement(given, &mut head, &mut heads, 0, stmt)?;
    head.close();
    let first = 0;
    lay(&mut head, &heads.as_slice()[first])?;
    Ok(head)
}
