//! What is given of a function.

ghost use Rattle.std.specs.Prelude.{◌≡◌, ℕ, map, flat_map, IfOk};
ghost use Rattle.jz_intervals.specs.Constants.{constants, is_among};
ghost use Rattle.jz_fact_numbers.specs.Ends.{HasEnds};
ghost use Rattle.jz_body_numbers.specs.Numbers.{of_function};
ghost use Rattle.jz_given.specs.Giving as giving;

use crate::parameters::parameters;
use crate::regions::regions;
use jz_annotations::Pre;
use jz_body_numbers::constants_in;
use jz_fact_sets::Given;
use jz_tree::{Fun, Seq};
use std::alloc::{AllocError, Global};

/// What is given of a function by its text and its preconditions.
pub fn given_of(alloc: Global, fun: &Fun, pres: &Seq<Pre>) -> Result<Given, AllocError>
    ensures all { IfOk result (λ made. (c : ℕ) → is_among c made.constants
        ≡ is_among c (constants (of_function fun.now.body pres.now))) }
    ensures ends { IfOk result (λ made. HasEnds made.constants) }
    ensures params { IfOk result
        (λ made. made.params ≡ map (giving.param_of pres.now) fun.now.params) }
    ensures regions { IfOk result (λ made. made.regions
        ≡ flat_map (giving.region_of (giving.variables fun.now.params)) pres.now) }
{
    let constants = constants_in(alloc, &fun.body, pres)?;
    let params = parameters(alloc, &fun.params, pres)?;
    let regions = regions(alloc, &fun.params, pres)?;
    Ok(Given {
        constants,
        params,
        regions,
    })
}
