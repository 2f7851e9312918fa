//! The turns of a `for`.

ghost use Rattle.std.specs.Prelude.{◌≡◌, [], ◌∷◌, ◌++◌, true, false, IfOk, MatchOption};
ghost use Rattle.jz_meaning.specs.Statements.{values_between};
ghost use Rattle.jz_limits.specs.Asked.{widths};
ghost use Rattle.jz_limits.specs.InnerKnown.{numbers_of};
ghost use Rattle.jz_limits.specs.InnerLooked.{first};
ghost use Rattle.jz_limits.specs.Values.{number_in};
ghost use Rattle.jz_limits.specs.Walks.{counted_values};
ghost use Rattle.jz_first_limit.specs.InnerMet.{values_left};

use jz_integers::inline_value;
use jz_limits::{Known, Limit, ask_bound, sooner, the_number};
use jz_tree::{Expr, Var};
use std::alloc::{AllocError, Global};

/// A `for` but for its body.
#[derive(Clone, Copy)]
pub struct Counter<'a> {
    pub counter: &'a Var,
    pub from: &'a Expr,
    pub down: bool,
    pub to: &'a Expr,
}

/// The values that a counter has yet to take: from the next one on, upwards or downwards, up to the
/// bound, which is left out.
#[derive(Clone, Copy)]
pub struct Values {
    pub down: bool,
    pub next: i128,
    pub end: i128,
}

impl Values {
    /// Takes the next value.
    pub fn take(&mut self) -> Option<i128>
        ensures { MatchOption result (values_left self.old ≡ [])
            (λ value. values_left self.old ≡ value ∷ values_left self.new) }
    {
        let value = self.next;
        match behind(self.down, value, self.end) {
            None => None,
            Some(next) => {
                self.next = next;
                Some(value)
            }
        }
    }
}

/// The value behind this one, if this one is a value of the counter.
fn behind(down: bool, value: i128, end: i128) -> Option<i128>
    ensures { MatchOption result (values_between down value end ≡ [])
        (λ next. values_between down value end ≡ value ∷ values_between down next end) }
{
    if down {
        one_lower(value, end)
    } else {
        one_higher(value, end)
    }
}

#[tactic(auto, using(jz_interp::proofs::Counting::rising_none, jz_interp::proofs::Counting::rising_more))]
fn one_higher(value: i128, end: i128) -> Option<i128>
    ensures { MatchOption result (values_between false value end ≡ [])
        (λ next. values_between false value end ≡ value ∷ values_between false next end) }
{
    if value < end { Some(value + 1) } else { None }
}

#[tactic(auto, using(jz_interp::proofs::Counting::falling_none, jz_interp::proofs::Counting::falling_more))]
fn one_lower(value: i128, end: i128) -> Option<i128>
    ensures { MatchOption result (values_between true value end ≡ [])
        (λ next. values_between true value end ≡ value ∷ values_between true next end) }
{
    if end < value { Some(value - 1) } else { None }
}

fn between(down: bool, from: Option<i128>, to: Option<i128>) -> Values
    ensures { values_left result ≡ counted_values down from to }
{
    match (from, to) {
        (Some(next), Some(end)) => Values { down, next, end },
        _ => Values {
            down: false,
            next: 0,
            end: 0,
        },
    }
}

/// The values that the counter takes; none where a bound has no value.
pub fn turns_of(alloc: Global, known: &Known, counter: Counter<'_>) -> Result<Values, AllocError>
    ensures { let from = number_in (numbers_of known.now) counter.entry.from.now in
        let to = number_in (numbers_of known.now) counter.entry.to.now in
        IfOk result (λ values. values_left values ≡ counted_values counter.entry.down from to) }
{
    let from = inline_value(alloc, known, counter.from)?;
    let to = inline_value(alloc, known, counter.to)?;
    Ok(between(counter.down, the_number(from), the_number(to)))
}

/// The first limit of the bounds.
#[tactic(auto, using(jz_limits::proofs::Sides::first_both))]
pub fn ask_bounds(
    alloc: Global,
    known: &Known,
    counter: Counter<'_>,
) -> Result<Option<Limit>, AllocError>
    ensures { let from = widths (numbers_of known.now) counter.entry.from.now in
        let to = widths (numbers_of known.now) counter.entry.to.now in
        IfOk result (λ found. found ≡ first (from ++ to)) }
{
    let from = ask_bound(alloc, known, counter.from)?;
    let to = ask_bound(alloc, known, counter.to)?;
    Ok(sooner(from, to))
}
