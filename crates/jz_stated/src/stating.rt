//! Preconditions of which none is refused.

ghost use Rattle.std.specs.Prelude.{◌≡◌, [], IfOk};
ghost use Rattle.jz_preconditions.specs.Refusals.{refused_places};
ghost use Rattle.jz_preconditions.specs.Stating.{preconditions_of};

use jz_preconditions::{Pre, preconditions};
use jz_tree::{Failure, Fun, Seq};
use std::alloc::{AllocError, Global};

/// The preconditions of a function of whose annotations none is refused, in the order of its text.
pub fn stated(alloc: Global, function: &Fun) -> Result<Seq<Pre>, AllocError>
    requires { refused_places function.now ≡ [] }
    ensures { IfOk result (λ pres. pres ≡ preconditions_of function.now) }
{
    match preconditions(alloc, function) {
        Ok(pres) => Ok(pres),
        Err(Failure::OutOfMemory) => Err(AllocError),
        Err(Failure::Refused(_)) => unreachable!(),
    }
}
