//! The three passes of an expansion, one after another.

ghost use Rattle.std.specs.Prelude.{IfOk, IfErr};
ghost use Rattle.jz_tree.specs.Failures.{IfRefused};
ghost use Rattle.jz_change.specs.Views.{change_of};
ghost use Rattle.jz_texts.specs.Texts.{IsText};
ghost use Rattle.jz_inlining.specs.Inlined.{IsExport, IsInlined};
ghost use Rattle.jz_inlining.specs.Inlined as inlined;
ghost use Rattle.jz_unrolling.specs.Unrolled.{IsUnrollable};
ghost use Rattle.jz_unrolling.specs.Unrolled as unrolled;
ghost use Rattle.jz_expansion.specs.Expanding.{IsCountedAt, PassesAt, IsExpandedAt, KeepsRuns};

use crate::expanded::Expanded;
use jz_change::compose;
use jz_first_limit::{Met, count_expanded};
use jz_inlining::{CopyLimit, Inlined, inline};
use jz_limits::Limit;
use jz_pass::Passed;
use jz_scalars::scalars;
use jz_tree::{Failure, Fun};
use jz_types::Typed;
use jz_unrolling::unroll;
use std::alloc::{AllocError, Global};

/// How many statements there are in expanded order; the first limit is found before anything is
/// copied.
fn ask_limits(alloc: Global, typed: &Typed, fun: usize) -> Result<usize, Failure<Limit>>
    requires { IsExport typed.now.program fun }
    ensures counted { IfOk result (IsCountedAt typed.now.program fun) }
    ensures refused { IfErr result (λ failure. IfRefused failure (PassesAt typed.now.program fun)) }
{
    let program = typed.program();
    let function = &program.funs.as_slice()[fun];
    let met = count_expanded(alloc, program, function)?;
    match met {
        Met::Within(count) => Ok(count),
        Met::Passed(limit) => Err(Failure::Refused(limit)),
    }
}

/// The function without its calls.
fn without_calls(alloc: Global, typed: &Typed, fun: usize) -> Result<Inlined, Failure<Limit>>
    requires { IsExport typed.now.program fun }
    ensures made { IfOk result (IsInlined typed.now.program fun) }
    ensures law { IfOk result (inlined.KeepsRuns typed.now.program fun) }
    ensures refused { IfErr result (λ failure. IfRefused failure (PassesAt typed.now.program fun)) }
{
    match inline(alloc, typed, fun) {
        Ok(inlined) => Ok(inlined),
        Err(Failure::OutOfMemory) => Err(Failure::OutOfMemory),
        Err(Failure::Refused(CopyLimit::Expand)) => Err(Failure::Refused(Limit::Expand)),
    }
}

/// The function whose loops are their rounds.
fn rounds_of(alloc: Global, fun: &Fun) -> Result<Passed<Fun>, AllocError>
    requires { ∥ IsUnrollable fun.now ∥₁ }
    ensures body { IfOk result
        (λ r. unrolled.IsUnrolled fun.now r.program (change_of r.change)) }
    ensures head { IfOk result (λ r. unrolled.KeepsHead fun.now r.program) }
    ensures law { IfOk result
        (λ r. unrolled.KeepsRuns fun.now r.program (change_of r.change)) }
{
    match unroll(alloc, fun) {
        Ok(passed) => Ok(passed),
        Err(Failure::OutOfMemory) => Err(AllocError),
        Err(Failure::Refused(_)) => unreachable!(),
    }
}

/// The expansion of the export function at that place of a typed program that was read from a text,
/// or the first limit that it passes, which is found with bounded work before anything is copied.
/// Within the limits each inline expression has a value, so nothing else is refused. The stack grows
/// with the nesting of the text and the depth of calls.
pub fn expand(alloc: Global, typed: &Typed, fun: usize) -> Result<Expanded, Failure<Limit>>
    requires export { IsExport typed.now.program fun }
    requires text { IsText typed.now.program }
    ensures made { IfOk result (IsExpandedAt typed.now.program fun) }
    ensures law { IfOk result (KeepsRuns typed.now.program fun) }
    ensures refused { IfErr result (λ failure. IfRefused failure (PassesAt typed.now.program fun)) }
{
    let count = ask_limits(alloc, typed, fun)?;
    let inlined = without_calls(alloc, typed, fun)?;
    let unrolled = rounds_of(alloc, &inlined.fun)?;
    let made = scalars(alloc, &unrolled.program)?;
    let Inlined {
        fun: _,
        change: first,
        extent: _,
    } = inlined;
    let Passed {
        program: _,
        change: second,
    } = unrolled;
    let Passed {
        program,
        change: third,
    } = made;
    let both = compose(alloc, first, second)?;
    let change = compose(alloc, both, third)?;
    Ok(Expanded {
        fun: program,
        change,
        count,
    })
}
