//! The first limit of a function.

ghost use Rattle.std.specs.Prelude.{IfOk};
ghost use Rattle.jz_limits.specs.Walks.{steps_of};
ghost use Rattle.jz_first_limit.specs.InnerMet.{MeetsSteps};
ghost use Rattle.jz_first_limit.specs.FirstLimits.{IsFirst, IsMet};

use crate::meeting::meet_block;
use crate::met::Met;
use jz_copies::{Callable, CopyLimit, copied_extent};
use jz_limits::{Known, Limit};
use jz_tree::{Failure, Fun, Program};
use std::alloc::{AllocError, Global};

/// What is met in expanded order.
fn met_in_order(alloc: Global, program: &Program, fun: &Fun) -> Result<Met, AllocError>
    ensures { let steps = steps_of program.now fun.now in IfOk result (MeetsSteps 0 steps) }
{
    let callable = Callable::of(alloc, &program.funs)?;
    let mut known = Known::new(alloc);
    let met = meet_block(&callable, callable.funs.len(), &fun.body, 0, &mut known)?;
    Ok(met)
}

/// How many statements a function has with all that it calls, in expanded order, where each turn of
/// a `for` counts for itself; or the first limit that it passes. It goes over no more copied
/// statements, and over no more turns and expanded statements, than there may be; and behind each of
/// these over no more than the function has copied ones.
pub fn count_expanded(alloc: Global, program: &Program, fun: &Fun) -> Result<Met, AllocError>
    ensures { IfOk result (IsMet program.now fun.now) }
{
    match copied_extent(alloc, program, fun) {
        Err(Failure::OutOfMemory) => Err(AllocError),
        Err(Failure::Refused(CopyLimit::Expand)) => Ok(Met::Passed(Limit::Expand)),
        Ok(_) => {
            let met = met_in_order(alloc, program, fun)?;
            Ok(met)
        }
    }
}

/// The first limit that a function passes with all that it calls; none where it is within them. It
/// goes as far as `count_expanded`.
pub fn first_limit(alloc: Global, program: &Program, fun: &Fun) -> Result<Option<Limit>, AllocError>
    ensures { IfOk result (IsFirst program.now fun.now) }
{
    let met = count_expanded(alloc, program, fun)?;
    match met {
        Met::Within(_) => Ok(None),
        Met::Passed(limit) => Ok(Some(limit)),
    }
}
