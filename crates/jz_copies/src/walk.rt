//! How many statements a function has with all that it calls.

ghost use Rattle.std.specs.Prelude.{IfOk, IfErr};
ghost use Rattle.jz_tree.specs.Failures.{IfRefused};
ghost use Rattle.jz_copies.specs.Counts.{IsExtent, Passes};

use crate::callable::Callable;
use crate::counting::count_block;
use crate::extent::{CopyLimit, Extent};
use jz_tree::{Failure, Fun, Program};
use std::alloc::Global;

/// How many statements the function has where each call is the body that it calls, and how deep
/// they stand; or the limit that their number passes. It goes over no more statements than there
/// may be, and its stack grows with the nesting of the text and the depth of calls.
pub fn copied_extent(
    alloc: Global,
    program: &Program,
    fun: &Fun,
) -> Result<Extent, Failure<CopyLimit>>
    ensures within { IfOk result (IsExtent program.now fun.now) }
    ensures passed { IfErr result (λ failure. IfRefused failure (Passes program.now fun.now)) }
{
    let callable = Callable::of(alloc, &program.funs)?;
    let none = Extent {
        count: 0,
        deepest: 0,
    };
    match count_block(&callable, callable.funs.len(), 1, &fun.body, none) {
        Ok(extent) => Ok(extent),
        Err(limit) => Err(Failure::Refused(limit)),
    }
}
