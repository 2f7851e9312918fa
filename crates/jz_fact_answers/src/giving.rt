//! Whether a set gives a fact.

ghost use Rattle.std.specs.Prelude.{◌≡◌, ◌↔◌, ◌%◌, ◌==◌, IsTrue};
ghost use Rattle.jz_facts.specs.Coded.{fact_of};
ghost use Rattle.jz_fact_readings.specs.Multiples.{times_of};
ghost use Rattle.jz_fact_sets.specs.Kept.{facts_of};
ghost use Rattle.jz_fact_answers.specs.Giving as giving;
ghost use Rattle.jz_fact_answers.specs.Giving.{Gives};
ghost use Rattle.jz_fact_numbers.specs.Ends.{HasEnds};

use jz_fact_readings::Times;
use jz_fact_sets::{FactSet, Given, is_named, known, known_at};
use jz_facts::Fact;
use jz_intervals::Constants;
use jz_layers::Named;

fn least_gives(constants: &Constants, least: Option<u64>, c: u64) -> bool
    ensures { result ≡ giving.least_gives constants.now least c }
{
    match least {
        None => false,
        Some(least) => {
            let nearest = constants.greatest_to(least);
            nearest <= least && c <= nearest
        }
    }
}

fn most_gives(constants: &Constants, most: Option<u64>, c: u64) -> bool
    ensures { result ≡ giving.most_gives constants.now most c }
{
    match most {
        None => false,
        Some(most) => {
            let nearest = constants.least_from(most, 0xffff_ffff_ffff_ffff);
            most <= nearest && nearest <= c
        }
    }
}

/// Whether 2, 4 or 8 is a multiple of `m`.
fn is_multiple(times: Times, m: u8) -> bool
    ensures { result ≡ (times_of times % m == 0) }
{
    if m == 0 {
        return false;
    }
    times.value() % (m as u64) == 0
}

fn times_gives(times: Option<Times>, m: u8) -> bool
    ensures { result ≡ giving.times_gives times m }
{
    match times {
        None => false,
        Some(times) => is_multiple(times, m),
    }
}

/// Whether a fact of the set says this one.
pub fn gives(given: &Given, set: &FactSet<'_>, fact: &Fact) -> bool
    requires { HasEnds given.now.constants }
    ensures { IsTrue result ↔ Gives (facts_of given.now set.now) (fact_of fact.now) }
{
    is_given(given, set, fact)
}

fn is_given(given: &Given, set: &FactSet<'_>, fact: &Fact) -> bool
    ensures { result ≡ giving.is_given given.now set.now (fact_of fact.now) }
{
    let constants = &given.constants;
    let params = given.params.as_slice();
    match fact {
        Fact::Set(v) => known(set, v).set,
        Fact::Cell(a, k) => known_at(set, Named::cell_of(a, *k as u64)).set,
        Fact::AtLeast(v, c) => least_gives(constants, known(set, v).least, *c),
        Fact::AtMost(v, c) => most_gives(constants, known(set, v).most, *c),
        Fact::Under(v, x) => is_named(params, known(set, v).under, x),
        Fact::Is(v, x) => is_named(params, known(set, v).is, x),
        Fact::Multiple(v, m) => times_gives(known(set, v).times, *m),
    }
}
