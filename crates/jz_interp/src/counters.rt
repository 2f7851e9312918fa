//! The values of the counter of a `for`.

ghost use Rattle.std.specs.Prelude.{◌≡◌, [], ◌∷◌, true, false, MatchOption};
ghost use Rattle.jz_meaning.specs.Stores.{state_of};
ghost use Rattle.jz_meaning.specs.Statements.{counts, values_between};
ghost use Rattle.jz_interp.specs.InnerParts.{counter_of};
ghost use Rattle.jz_interp.specs.InnerRounds.{values_left, GivesValues};

use crate::parts::Counter;
use jz_meaning::{State, Stuck};
use jz_run_assign::number_in;
use jz_tree::{Failure, Seq};

/// The values that a counter has yet to take: from the next one on, upwards or downwards, up to the
/// bound, which is left out.
#[derive(Clone, Copy)]
pub struct Values {
    pub down: bool,
    pub next: i128,
    pub end: i128,
}

impl Values {
    /// Takes the next value.
    pub fn take(&mut self) -> Option<i128>
        ensures { MatchOption result (values_left self.old ≡ [])
            (λ value. values_left self.old ≡ value ∷ values_left self.new) }
    {
        let value = self.next;
        match behind(self.down, value, self.end) {
            None => None,
            Some(next) => {
                self.next = next;
                Some(value)
            }
        }
    }
}

/// All values of the counter, by the bounds as they are written.
pub fn counter_values(
    counter: Counter<'_>,
    state: &State,
    out: &mut Seq<u64>,
) -> Result<Values, Failure<Stuck>>
    ensures { let meaning = counts (counter_of counter.entry) (state_of state.now) in
        GivesValues result out.old out.new meaning }
{
    let next = number_in(counter.span, counter.from, state, out)?;
    let end = number_in(counter.span, counter.to, state, out)?;
    let down = counter.down;
    Ok(Values { down, next, end })
}

/// The value behind this one, if this one is a value of the counter.
fn behind(down: bool, value: i128, end: i128) -> Option<i128>
    ensures { MatchOption result (values_between down value end ≡ [])
        (λ next. values_between down value end ≡ value ∷ values_between down next end) }
{
    if down {
        one_lower(value, end)
    } else {
        one_higher(value, end)
    }
}

#[tactic(auto, using(crate::proofs::Counting::rising_none, crate::proofs::Counting::rising_more))]
fn one_higher(value: i128, end: i128) -> Option<i128>
    ensures { MatchOption result (values_between false value end ≡ [])
        (λ next. values_between false value end ≡ value ∷ values_between false next end) }
{
    if value < end { Some(value + 1) } else { None }
}

#[tactic(auto, using(crate::proofs::Counting::falling_none, crate::proofs::Counting::falling_more))]
fn one_lower(value: i128, end: i128) -> Option<i128>
    ensures { MatchOption result (values_between true value end ≡ [])
        (λ next. values_between true value end ≡ value ∷ values_between true next end) }
{
    if end < value { Some(value - 1) } else { None }
}
