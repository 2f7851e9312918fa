//! A place for each variable of a function, or why one has none.

ghost use Rattle.std.specs.Prelude.{◌≡◌, ◌<◌, ◌^◌, length, IfOk, IfErr};
ghost use Rattle.jz_data.specs.Failures.{IfRefused};
ghost use Rattle.jz_ir.specs.Places.{IsWithin, IsPlacing, FirstFit, all_of};
ghost use Rattle.jz_alloc.specs.Answers.{IsEvidence};
ghost use Rattle.jz_place.specs.Bodies.{seen_code, LiveInWhole};

use crate::flow::branching;
use crate::tree::Ir;
use jz_alloc::{NoPlace, Places};
use jz_data::Failure;
use jz_fit::allocate;
use std::alloc::Global;

/// First fit over the entry, the body and the return.
pub fn places_of(alloc: Global, ir: &Ir) -> Result<Places, Failure<NoPlace>>
    requires within { IsWithin (seen_code ir.now) }
    requires count { length ir.now.kinds < 2 ^ 32 }
    ensures first { IfOk result (λ places. FirstFit (seen_code ir.now).ops ir.now.kinds
        ir.now.in_use (LiveInWhole ir.now) (all_of places)) }
    ensures rule { IfOk result
        (λ places. IsPlacing (seen_code ir.now) (LiveInWhole ir.now) places) }
    ensures evidence { IfErr result (λ failure. IfRefused failure
        (λ refusal. IsEvidence (seen_code ir.now) (LiveInWhole ir.now) refusal)) }
{
    let code = branching(alloc, ir)?;
    allocate(alloc, &code)
}
