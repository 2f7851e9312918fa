//! What an address is read as.

ghost use Rattle.std.specs.Prelude.{◌≡◌, ◌||◌, IfOk};
ghost use Rattle.x64_insn.specs.Sizes.{bytes_of};
ghost use Rattle.jz_meaning.specs.Values.{ref_of};
ghost use Rattle.jz_terms.specs.Terms.{term_of};
ghost use Rattle.jz_inside.specs.Said.{given_in, facts_in};
ghost use Rattle.jz_alarms.specs.Conditions as conditions;
ghost use Rattle.jz_alarms.specs.Conditions.{sum_of, readings, readings_of};
ghost use Rattle.jz_wide.specs.Sums.{shown, AreFew};
ghost use Rattle.jz_inside.specs.InnerSums.{seen};
ghost use Rattle.jz_inside.specs.InnerReadings.{either_reading};

use crate::regions::{Reading, in_some_region};
use crate::sums::{Scaled, Sum, add_sum};
use jz_fact_sets::Saying;
use jz_tree::{Expr, Var};
use jz_wide::{Numbers, total};
use std::alloc::{AllocError, Global};
use x64_insn::Size;

/// The numbers of a sum.
fn numbers_of(sum: &Sum<'_>) -> Numbers
    ensures shown { shown result ≡ (seen sum.now).more }
    ensures few { AreFew result }
{
    Numbers {
        added: total(sum.added.as_slice()),
        taken: total(sum.taken.as_slice()),
    }
}

fn one_of(a: bool, b: bool) -> bool
    ensures { result ≡ (a || b) }
{
    a || b
}

/// Whether an access lies in some region where one of two variables is the base and the other one
/// the index.
fn in_either(says: Saying<'_, '_>, size: Size, first: &Var, second: &Var, more: Numbers) -> bool
    requires { AreFew more }
    ensures { result ≡ conditions.in_some_reading (given_in says.entry)
        (facts_in says.entry) (bytes_of size)
        (either_reading (ref_of first.now) (ref_of second.now) (shown more)) }
{
    let one = Reading {
        base: first,
        index: Some(Scaled { var: second, by: 1 }),
        more,
    };
    let other = Reading {
        base: second,
        index: Some(Scaled { var: first, by: 1 }),
        more,
    };
    let first = in_some_region(says, size, one);
    let second = in_some_region(says, size, other);
    one_of(first, second)
}

/// Whether it lies in one in some reading of a sum.
#[tactic(auto, using(crate::proofs::Reading::no_plain_reading, crate::proofs::Reading::three_plain, crate::proofs::Reading::two_scaled, crate::proofs::Reading::two_and_some))]
fn in_some_reading(says: Saying<'_, '_>, size: Size, sum: &Sum<'_>) -> bool
    ensures { result ≡ conditions.in_some_reading (given_in says.entry)
        (facts_in says.entry) (bytes_of size)
        (readings_of (seen sum.now)) }
{
    let more = numbers_of(sum);
    let scaled = sum.scaled.as_slice();
    match sum.plain.as_slice() {
        [] => false,
        [base] => match scaled {
            [] => in_some_region(
                says,
                size,
                Reading {
                    base: *base,
                    index: None,
                    more,
                },
            ),
            [index] => {
                let index = Some(*index);
                in_some_region(
                    says,
                    size,
                    Reading {
                        base: *base,
                        index,
                        more,
                    },
                )
            }
            [_, _, ..] => false,
        },
        [second, first] => match scaled {
            [] => in_either(says, size, *first, *second, more),
            [_, ..] => false,
        },
        [_, _, _, ..] => false,
    }
}

/// Whether an access of a size lies in some region, in some reading of its address.
pub fn is_inside(
    alloc: Global,
    says: Saying<'_, '_>,
    size: Size,
    address: &Expr,
) -> Result<bool, AllocError>
    ensures { IfOk result (λ yes. yes ≡ conditions.in_some_reading
        (given_in says.entry) (facts_in says.entry)
        (bytes_of size) (readings (sum_of (term_of address.now)))) }
{
    let mut sum = Sum::new(alloc);
    let yes = add_sum(&mut sum, address)?;
    if yes {
        Ok(in_some_reading(says, size, &sum))
    } else {
        Ok(false)
    }
}
