//! What a set of facts says of variables.

ghost use Rattle.std.specs.Prelude.{◌≡◌, ◌==◌, ◌%◌, ◌&&◌};
ghost use Rattle.jz_meaning.specs.States.{same_key};
ghost use Rattle.jz_layers.specs.Spots.{variable_key};
ghost use Rattle.jz_facts.specs.Facts.{multiples};
ghost use Rattle.jz_facts.specs.Intervals.{of_variable, has_multiple};
ghost use Rattle.jz_fact_readings.specs.Multiples.{times_of};
ghost use Rattle.jz_fact_sets.specs.Kept as kept;

use crate::given::{Given, Parameter};
use crate::set::{FactSet, known};
use jz_fact_readings::{Knows, Times};
use jz_facts::same_variable;
use jz_intervals::{Constants, Interval, greatest_word, lower};
use jz_tree::Var;
use x64_insn::Size;

/// A set of facts with what is given of its function.
#[derive(Clone, Copy)]
pub struct Saying<'s, 'a> {
    pub given: &'s Given,
    pub set: &'s FactSet<'a>,
}

/// Whether the lowest bit is set and the parameter is this variable.
fn is_first(bits: u64, param: &Parameter, var: &Var) -> bool
    ensures { result ≡ ((bits % 2 == 1) && same_key (variable_key param.now.var)
        (variable_key var.now)) }
{
    bits % 2 == 1 && same_variable(&param.var, var)
}

/// Whether a parameter of that name has its bit.
pub fn is_named(params: &[Parameter], bits: u64, var: &Var) -> bool
    ensures { result ≡ kept.is_named params.now bits (variable_key var.now) }
{
    let mut rest = bits;
    for param in params {
        if is_first(rest, param, var) {
            return true;
        }
        rest /= 2;
    }
    false
}

/// The lower of a number and the parameter's end, less 1, where this is below the parameter.
fn one_below(params: &[Parameter], bits: u64, param: &Parameter, least: u64) -> u64
    ensures { result ≡ kept.one_below params.now bits param.now least }
{
    if is_named(params, bits, &param.var) {
        lower(param.hi().saturating_sub(1), least)
    } else {
        least
    }
}

/// The least of a number and of the ends, less 1, of the parameters that have their bits.
pub fn below_all(params: &[Parameter], bits: u64, most: u64) -> u64
    ensures { result ≡ kept.below_all params.now bits most params.now }
{
    let mut least = most;
    for param in params {
        least = one_below(params, bits, param, least);
    }
    least
}

fn least_by(constants: &Constants, least: Option<u64>) -> u64
    ensures { result ≡ kept.least_by constants.now least }
{
    match least {
        None => 0,
        Some(least) => constants.greatest_to(least),
    }
}

fn most_by(constants: &Constants, most: Option<u64>, otherwise: u64) -> u64
    ensures { result ≡ kept.most_by constants.now most otherwise }
{
    match most {
        None => otherwise,
        Some(most) => constants.least_from(most, otherwise),
    }
}

impl<'s, 'a> Knows for Saying<'s, 'a> {
    ghost use Rattle.jz_fact_sets.specs.Kept.{given_of, facts_of};

    ghost given = { λ s. given_of s.given.now };

    ghost facts = { λ s. facts_of s.given.now s.set.now };

    fn interval_of(&self, size: Size, var: &Var) -> Interval
        ensures { result ≡ of_variable (given_of self.now.given.now)
            (facts_of self.now.given.now self.now.set.now) size (variable_key var.now) }
    {
        let kept = known(self.set, var);
        let most = greatest_word(size);
        let all = &self.given.constants;
        let lo = least_by(all, kept.least);
        let hi = most_by(all, kept.most, most);
        Interval {
            lo: lower(lo, most),
            hi: below_all(self.given.params.as_slice(), kept.under, hi),
        }
    }

    fn is_multiple(&self, var: &Var, m: Times) -> bool
        ensures { result ≡ has_multiple (given_of self.now.given.now)
            (facts_of self.now.given.now self.now.set.now) (variable_key var.now) (times_of m)
            multiples }
    {
        match known(self.set, var).times {
            None => false,
            Some(times) => times.value() % m.value() == 0,
        }
    }
}
