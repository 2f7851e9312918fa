//! Whether an export function is run on items.

ghost use Rattle.std.specs.Prelude.{◌≡◌, ◌<◌, [], Some, length, slice_get};
ghost use Rattle.jz_tree.specs.Failures.{IfAnswered};
ghost use Rattle.jz_preconditions.specs.Refusals.{refused_places};
ghost use Rattle.jasminc_calls.specs.Fitting.{CallAnswers};

use crate::calls::{Called, prepared};
use jz_inputs::first_unmet;
use jz_items::Item;
use jz_preconditions::Pre;
use jz_tree::{Failure, Fun, Seq};
use std::alloc::Global;

/// Why a function is not run on items.
#[derive(Drop)]
pub enum Unfit {
    /// There is another number of items than of parameters.
    Items,
    /// This precondition does not hold of the items.
    Unmet(Pre),
}

/// The precondition at a place.
fn taken(pres: Seq<Pre>, place: usize) -> Pre
    requires { place < length pres }
    ensures { slice_get pres place ≡ Some result }
{
    let mut list = pres.into_vec();
    list.swap_remove(place)
}

/// What a function of which no precondition is refused is run on, where there are as many items as
/// it has parameters and they meet its preconditions.
pub fn called_on(alloc: Global, function: &Fun, items: &Seq<Item>) -> Result<Called, Failure<Unfit>>
    requires { refused_places function.now ≡ [] }
    ensures { IfAnswered result (CallAnswers function.now items.now) }
{
    if items.len() != function.params.len() {
        return Err(Failure::Refused(Unfit::Items));
    }
    let called = prepared(alloc, function, items)?;
    match first_unmet(function, &called.bits, items, &called.pres) {
        Some(at) => Err(Failure::Refused(Unfit::Unmet(taken(called.pres, at)))),
        None => Ok(called),
    }
}
