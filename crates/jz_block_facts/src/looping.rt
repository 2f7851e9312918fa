//! The heads of loops.

ghost use Rattle.std.specs.Prelude.{◌≡◌, ◌++◌, ◌∷◌, ◌+◌, ◌<◌, ◌≤◌, ℕ, [], OnOk, IfOk};
ghost use Rattle.std.specs.Prelude.{true, false, length, slice_get, slice_set, MatchOption, IsSomeAnd};
ghost use Rattle.jz_tree.specs.Span.{Span as Place};
ghost use Rattle.jz_flow.specs.Sets.{common};
ghost use Rattle.jz_terms.specs.Terms.{term_of};
ghost use Rattle.jz_facts.specs.Tests.{leaves};
ghost use Rattle.jz_layers.specs.Spots.{Spot};
ghost use Rattle.jz_layers.specs.declared.layers.Layers.{Layers};
ghost use Rattle.jz_layers.specs.Layered.{IsOver, ClosesTo};
ghost use Rattle.jz_fact_sets.specs.declared.given.Given as code;
ghost use Rattle.jz_fact_sets.specs.declared.knowledge.Knowledge.{Knowledge};
ghost use Rattle.jz_fact_sets.specs.Kept.{AreDifferent, given_of, facts_of, known_at};
ghost use Rattle.jz_fact_sets.specs.Meeting.{Falls, amount};
ghost use Rattle.jz_test_facts.specs.Comparing.{AreWords};
ghost use Rattle.jz_block_facts.specs.Heads.{laid};
ghost use Rattle.jz_block_facts.specs.Pieces.{is_truth};

use crate::laying::{lay, taken};
use indexmap::IndexMap;
use jz_fact_sets::{FactSet, Given, Table, narrow};
use jz_test_facts::after_test;
use jz_tree::{Expr, Seq, Span, Stmt};
use std::alloc::AllocError;

/// The parts of a loop.
#[derive(Clone, Copy)]
pub(crate) struct Loop<'a> {
    pub span: Span,
    pub prologue: &'a Seq<Stmt>,
    pub cond: &'a Expr,
    pub body: &'a Option<Seq<Stmt>>,
}

/// Narrows what is known by the table of this number.
fn narrow_head<'a>(
    set: &mut FactSet<'a>,
    heads: &Seq<Table<'a>>,
    at: usize,
) -> Result<(), AllocError>
    requires { at < length heads.now }
    ensures below { OnOk result (set.new.below.items ≡ set.old.below.items) }
    ensures less { OnOk result ((k : Spot)
        → amount (known_at set.new k) ≤ amount (known_at set.old k)) }
    ensures facts { OnOk result (IsSomeAnd (slice_get heads.now at)
        (λ m. (g : code.Given) → AreDifferent g.params → facts_of g set.new
        ≡ common (facts_of g set.old) (laid g m (facts_of g set.old)))) }
{
    narrow(set, &heads.as_slice()[at])?;
    Ok(())
}

/// Opens a table for the head of the loop of this number, with what is known of the head; gives the
/// next number.
pub(crate) fn open_head<'a>(
    set: &mut FactSet<'a>,
    heads: &mut Seq<Table<'a>>,
    at: usize,
) -> Result<usize, AllocError>
    requires { at ≤ length heads.old }
    ensures next { IfOk result (λ next. next ≡ at + 1) }
    ensures within { OnOk result (at < length heads.new) }
    ensures others { OnOk result ((k : ℕ) → (k ≡ at → ⊥)
        → slice_get heads.new k ≡ slice_get heads.old k) }
    ensures below { OnOk result (set.new.below.items
        ≡ set.old.below.items ++ set.old.top ∷ []) }
    ensures less { OnOk result ((k : Spot)
        → amount (known_at set.new k) ≤ amount (known_at set.old k)) }
    ensures facts { OnOk result (MatchOption (slice_get heads.old at)
        ((g : code.Given) → facts_of g set.new ≡ facts_of g set.old)
        (λ m. (g : code.Given) → AreDifferent g.params → facts_of g set.new
        ≡ common (facts_of g set.old) (laid g m (facts_of g set.old)))) }
{
    set.open()?;
    if at < heads.len() {
        narrow_head(set, heads, at)?;
        return Ok(at + 1);
    }
    heads.push(IndexMap::new(set.allocator()))?;
    Ok(heads.len())
}

/// What holds at a head and behind a turn becomes what holds there; whether this is less.
pub(crate) fn lower_head<'a>(
    set: &mut FactSet<'a>,
    prologue: &Table<'a>,
    body: &Table<'a>,
) -> Result<bool, AllocError>
    ensures below { OnOk result (set.new.below.items ≡ set.old.below.items) }
    ensures facts { OnOk result ((g : code.Given) → AreDifferent g.params → facts_of g set.new
        ≡ common (facts_of g set.old)
        (laid g body.now (laid g prologue.now (facts_of g set.old)))) }
    ensures same { IfOk result (λ fell. fell ≡ false → known_at set.new ≡ known_at set.old) }
    ensures falls { IfOk result (λ fell. fell ≡ true
        → Falls (known_at set.old) (known_at set.new)) }
{
    set.open()?;
    lay(set, prologue)?;
    lay(set, body)?;
    let turn = set.close();
    let fell = narrow(set, &turn)?;
    Ok(fell)
}

/// `true`
fn is_true(e: &Expr) -> bool
    ensures { result ≡ is_truth (term_of e.now) }
{
    match e {
        Expr::Num(_, _) => false,
        Expr::Bool(truth, _) => *truth,
        Expr::Var(_) => false,
        Expr::Cell(_, _) => false,
        Expr::Load(_) => false,
        Expr::Neg(_, _) => false,
        Expr::Not(_, _) => false,
        Expr::Cast { .. } => false,
        Expr::Bin(_, _, _, _) => false,
    }
}

/// What holds behind a loop, where its head holds, by what its prologue lays over that.
pub fn leave<'a>(
    given: &Given,
    set: &mut FactSet<'a>,
    cond: &'a Expr,
    prologue: &Table<'a>,
) -> Result<(), AllocError>
    requires { AreWords given.now.constants }
    ensures below { OnOk result (set.new.below.items ≡ set.old.below.items) }
    ensures facts { OnOk result ((at : Place) → facts_of given.now set.new
        ≡ leaves (given_of given.now) (record { cond = cond.now; at = at })
        (facts_of given.now set.old) (laid given.now prologue.now (facts_of given.now set.old))) }
{
    if is_true(cond) {
        return Ok(());
    }
    lay(set, prologue)?;
    after_test(given, set, cond, false)?;
    Ok(())
}

/// Takes the table of a head, over the set that comes in, stores it, and leaves the loop.
pub(crate) fn end_loop<'a>(
    given: &Given,
    set: &mut FactSet<'a>,
    heads: &mut Seq<Table<'a>>,
    at: usize,
    cond: &'a Expr,
    prologue: &Table<'a>,
) -> Result<(), AllocError>
    requires over { IsOver set.old }
    requires words { AreWords given.now.constants }
    requires within { at < length heads.old }
    ensures below { OnOk result ((zero : Layers Knowledge) → ClosesTo set.old zero
        → set.new.below.items ≡ zero.below.items) }
    ensures facts { OnOk result ((span : Place) → facts_of given.now set.new
        ≡ leaves (given_of given.now) (record { cond = cond.now; at = span })
        (facts_of given.now set.old) (laid given.now prologue.now (facts_of given.now set.old))) }
    ensures heads { OnOk result (heads.new
        ≡ slice_set heads.old at set.old.top) }
{
    let head = taken(set);
    lay(set, &head)?;
    leave(given, set, cond, prologue)?;
    heads.set(at, head);
    Ok(())
}
