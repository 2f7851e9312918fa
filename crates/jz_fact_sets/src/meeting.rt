//! What is known where paths meet.

ghost use Rattle.std.specs.Prelude.{◌≡◌, ◌||◌, false, true, OnOk, IfOk};
ghost use Rattle.jz_layers.specs.Spots.{Spot, spot_of, entry_in};
ghost use Rattle.jz_fact_sets.specs.Kept.{known_at};
ghost use Rattle.jz_fact_sets.specs.Meeting as meeting;
ghost use Rattle.jz_fact_sets.specs.Meeting.{IsMet, Falls};

use crate::knowledge::Knowledge;
use crate::set::{FactSet, Table, known_at};
use indexmap::IndexMap;
use jz_layers::Named;
use std::alloc::AllocError;

/// What is known where a table lies over a set, in which this is known.
fn over_known<'a>(table: &Table<'a>, named: Named<'a>, under: Knowledge) -> Knowledge
    ensures { result ≡ meeting.or_known under (entry_in table.now (spot_of named.entry)) }
{
    match table.get(&named) {
        None => under,
        Some(known) => *known,
    }
}

/// What is known by both of two tables over a set.
fn met_at<'a>(set: &FactSet<'a>, a: &Table<'a>, b: &Table<'a>, named: Named<'a>) -> Knowledge
    ensures { result ≡ meeting.met_at a.now b.now (known_at set.now) (spot_of named.entry) }
{
    let under = known_at(set, named);
    over_known(a, named, under).meet(over_known(b, named, under))
}

/// Adds what is known by both of two tables over a set, at each spot of one of them.
fn add_met<'a>(
    set: &FactSet<'a>,
    a: &Table<'a>,
    b: &Table<'a>,
    of: &Table<'a>,
    out: &mut Table<'a>,
) -> Result<(), AllocError>
    ensures { OnOk result (entry_in out.new
        ≡ meeting.with_met a.now b.now of.now (known_at set.now) (entry_in out.old)) }
{
    let count = of.len();
    let mut i = 0;
    while i < count {
        match of.get_index(i) {
            None => unreachable!(),
            Some(entry) => {
                out.insert(*entry.0, met_at(set, a, b, *entry.0))?;
            }
        }
        i += 1;
    }
    Ok(())
}

/// What is known by both of two tables over a set becomes known.
pub fn meet<'a>(set: &mut FactSet<'a>, a: &Table<'a>, b: &Table<'a>) -> Result<(), AllocError>
    ensures below { OnOk result (set.new.below.items ≡ set.old.below.items) }
    ensures known { OnOk result (IsMet a.now b.now (known_at set.old) (known_at set.new)) }
{
    let mut out = IndexMap::new(set.allocator());
    add_met(set, a, b, a, &mut out)?;
    add_met(set, a, b, b, &mut out)?;
    set.pour(&out)?;
    Ok(())
}

fn either(a: bool, b: bool) -> bool
    ensures { result ≡ (a || b) }
{
    a || b
}

/// Where less is known by a table than before, that is known; whether it was less.
fn narrow_at<'a>(
    set: &mut FactSet<'a>,
    named: Named<'a>,
    turn: Knowledge,
) -> Result<bool, AllocError>
    ensures below { OnOk result (set.new.below.items ≡ set.old.below.items) }
    ensures known { OnOk result (known_at set.new
        ≡ meeting.narrowed_at (spot_of named.entry) turn (known_at set.old)) }
    ensures same { IfOk result (λ fell. fell ≡ false → known_at set.new ≡ known_at set.old) }
    ensures falls { IfOk result (λ fell. fell ≡ true
        → Falls (known_at set.old) (known_at set.new)) }
{
    let old = known_at(set, named);
    let new = old.meet(turn);
    if new.same(old) {
        return Ok(false);
    }
    set.put(named, new)?;
    Ok(true)
}

/// What is known before and by a table becomes known; whether this is less than before.
pub fn narrow<'a>(set: &mut FactSet<'a>, turn: &Table<'a>) -> Result<bool, AllocError>
    ensures below { OnOk result (set.new.below.items ≡ set.old.below.items) }
    ensures known { OnOk result (known_at set.new
        ≡ meeting.narrowed turn.now (known_at set.old)) }
    ensures same { IfOk result (λ fell. fell ≡ false → known_at set.new ≡ known_at set.old) }
    ensures falls { IfOk result (λ fell. fell ≡ true
        → Falls (known_at set.old) (known_at set.new)) }
{
    let count = turn.len();
    let mut fell = false;
    let mut i = 0;
    while i < count {
        match turn.get_index(i) {
            None => unreachable!(),
            Some(entry) => {
                let here = narrow_at(set, *entry.0, *entry.1)?;
                fell = either(fell, here);
            }
        }
        i += 1;
    }
    Ok(fell)
}
