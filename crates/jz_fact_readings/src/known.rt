//! What a set of facts says of variables.

ghost use Rattle.std.specs.Prelude.{◌≡◌};
ghost use Rattle.jz_meaning.specs.Values.{key_of, ref_of};
ghost use Rattle.jz_facts.specs.Facts.{Facts, Given, multiples};
ghost use Rattle.jz_facts.specs.Intervals.{of_variable, has_multiple};
ghost use Rattle.jz_fact_readings.specs.Multiples.{times_of};

use crate::times::Times;
use jz_intervals::Interval;
use jz_tree::Var;
use x64_insn::Size;

/// A set of facts, with what is given of the function.
pub trait Knows {
    ghost given: { Self → Given };

    ghost facts: { Self → Facts };

    /// The interval of a variable, as a word of a size.
    fn interval_of(&self, size: Size, var: &Var) -> Interval
        ensures { result ≡ of_variable (given self.now) (facts self.now) size
            (key_of (ref_of var.now)) };

    /// Whether a variable is said to be a multiple of `m`.
    fn is_multiple(&self, var: &Var, m: Times) -> bool
        ensures { result ≡ has_multiple (given self.now) (facts self.now)
            (key_of (ref_of var.now)) (times_of m) multiples };
}
