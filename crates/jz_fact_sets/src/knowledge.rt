//! What is known of one variable.

ghost use Rattle.std.specs.Prelude.{◌≡◌, ◌<◌, ◌^◌, true, IfSome};
ghost use Rattle.std.specs.Bool.{MatchBool};
ghost use Rattle.jz_fact_sets.specs.Knowing as knowing;

use jz_fact_readings::Times;

/// What is known of a variable, or of a cell of a stack array.
#[derive(Clone, Copy)]
pub struct Knowledge {
    /// It has a value.
    pub set: bool,
    pub least: Option<u64>,
    pub most: Option<u64>,
    pub times: Option<Times>,
    /// Bit k: it is below parameter k.
    pub under: u64,
    /// Bit k: it is what parameter k was.
    pub is: u64,
}

fn least_of_both(a: Option<u64>, b: Option<u64>) -> Option<u64>
    ensures { result ≡ knowing.least_of_both a b }
{
    match a {
        None => None,
        Some(a) => match b {
            None => None,
            Some(b) => Some(if a <= b { a } else { b }),
        },
    }
}

fn most_of_both(a: Option<u64>, b: Option<u64>) -> Option<u64>
    ensures both { result ≡ knowing.most_of_both a b }
    ensures small { IfSome result (λ n. n < 2 ^ 64) }
{
    match a {
        None => None,
        Some(a) => match b {
            None => None,
            Some(b) => Some(if a <= b { b } else { a }),
        },
    }
}

fn times_of_both(a: Option<Times>, b: Option<Times>) -> Option<Times>
    ensures { result ≡ knowing.times_of_both a b }
{
    match a {
        None => None,
        Some(a) => match b {
            None => None,
            Some(b) => Some(if a.value() <= b.value() { a } else { b }),
        },
    }
}

fn same_number(a: Option<u64>, b: Option<u64>) -> bool
    ensures { MatchBool result (a ≡ b) (a ≡ b → ⊥) }
{
    match a {
        None => b.is_none(),
        Some(a) => match b {
            None => false,
            Some(b) => a == b,
        },
    }
}

fn same_times(a: Option<Times>, b: Option<Times>) -> bool
    ensures { MatchBool result (a ≡ b) (a ≡ b → ⊥) }
{
    match a {
        None => b.is_none(),
        Some(a) => match b {
            None => false,
            Some(b) => a == b,
        },
    }
}

impl Knowledge {
    /// Nothing is known.
    pub fn nothing() -> Knowledge
        ensures { result ≡ knowing.nothing }
    {
        Knowledge {
            set: false,
            least: None,
            most: None,
            times: None,
            under: 0,
            is: 0,
        }
    }

    /// It has a value, and no more is known.
    pub fn only_set() -> Knowledge
        ensures { result ≡ record knowing.nothing { set = true } }
    {
        Knowledge {
            set: true,
            least: None,
            most: None,
            times: None,
            under: 0,
            is: 0,
        }
    }

    /// What is known by both.
    pub fn meet(self, other: Knowledge) -> Knowledge
        ensures both { result ≡ knowing.meet self other }
        ensures small { IfSome result.most (λ n. n < 2 ^ 64) }
    {
        Knowledge {
            set: self.set && other.set,
            least: least_of_both(self.least, other.least),
            most: most_of_both(self.most, other.most),
            times: times_of_both(self.times, other.times),
            under: self.under & other.under,
            is: self.is & other.is,
        }
    }

    /// Whether both are the same.
    pub fn same(self, other: Knowledge) -> bool
        ensures { MatchBool result (self ≡ other) (self ≡ other → ⊥) }
    {
        if self.set != other.set {
            return false;
        }
        if !same_number(self.least, other.least) {
            return false;
        }
        if !same_number(self.most, other.most) {
            return false;
        }
        if !same_times(self.times, other.times) {
            return false;
        }
        if self.under != other.under {
            return false;
        }
        self.is == other.is
    }
}
