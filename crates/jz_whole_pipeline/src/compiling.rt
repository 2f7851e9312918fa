//! One export function as bytes.

ghost use Rattle.std.specs.Prelude.{◌≡◌, ◌≤◌, IfOk, IfErr};
ghost use Rattle.jz_data.specs.Failures.{IfRefused};
ghost use Rattle.jz_change.specs.Views.{change_of};
ghost use Rattle.jz_compiling.specs.Made.{IsMadeOf};
ghost use Rattle.jz_whole_pipeline.specs.Correctness.{IsCorrectOf, HasPlaces, IsRefusedFor};

use jz_compiling::{NotCompiled, compile_expanded};
use jz_data::Failure;
use jz_io::Ct;
use jz_listing::Compiled;
use jz_safe::Safe;
use std::alloc::Global;

/// The bytes, the lines and the printed transformer of the export function whose expansion is found
/// to be safe; `ct` is what the listing says about constant time. Refused where its operations are
/// refused at a place, where its stack variables take more than 65,536 bytes, and else where first
/// fit leaves a variable without a place. The frame is at most 65,536 bytes of variables, the six
/// registers that are preserved and 8 more than a multiple of 16. The stack grows with the nesting
/// of the text.
pub fn compile_fun(alloc: Global, safe: Safe, ct: Ct) -> Result<Compiled, Failure<NotCompiled>>
    ensures made { IfOk result
        (IsMadeOf safe.expanded.fun (change_of safe.expanded.change)) }
    ensures correct { IfOk result (IsCorrectOf safe.expanded) }
    ensures said { IfOk result (λ c. c.ct ≡ ct) }
    ensures placed { IfOk result (λ c. HasPlaces safe.expanded.fun) }
    ensures small { IfOk result (λ c. c.frame ≤ 65592) }
    ensures refused { IfErr result (λ e. IfRefused e (IsRefusedFor safe.expanded.fun)) }
{
    let expanded = safe.into_expanded();
    let (fun, change) = expanded.into_parts();
    let compiled = compile_expanded(alloc, &fun, change, ct)?;
    Ok(compiled)
}
