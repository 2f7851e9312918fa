//! The expansion of one of them.

ghost use Rattle.std.specs.Prelude.{IfOk};
ghost use Rattle.jz_expansion.specs.Expanding.{IsExpandedAt};
ghost use Rattle.jasminc_expansions.specs.Ready.{IsReadyAt};

use jz_expansion::{Expanded, expand};
use jz_tree::Failure;
use jz_types::Typed;
use std::alloc::{AllocError, Global};

/// The expansion of an export function within the limits.
pub fn expanded_at(alloc: Global, typed: &Typed, place: usize) -> Result<Expanded, AllocError>
    requires { IsReadyAt typed.now.program place }
    ensures { IfOk result (IsExpandedAt typed.now.program place) }
{
    match expand(alloc, typed, place) {
        Ok(expanded) => Ok(expanded),
        Err(Failure::OutOfMemory) => Err(AllocError),
        Err(Failure::Refused(_)) => unreachable!(),
    }
}
