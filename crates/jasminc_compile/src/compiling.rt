//! One safe export function as bytes.

ghost use Rattle.std.specs.Prelude.{IfOk, IfErr};
ghost use Rattle.jz_data.specs.Failures.{IfRefused};
ghost use Rattle.jz_code.specs.declared.code.NoCode.TheVariants as no;
ghost use Rattle.jz_whole_pipeline.specs.NotCompiled.TheVariants as uncompiled;
ghost use Rattle.jz_whole_pipeline.specs.Correctness.{IsRefusedFor};
ghost use Rattle.jasminc_check.specs.Ready.{IsReadyAt};
ghost use Rattle.jasminc_compile.specs.InnerMaking.{IsCompiledFrom, IsRefusedAt, IsNamedAt};
ghost use Rattle.jasminc_compile.specs.InnerMaking.{IsNameAt};
ghost use Rattle.jasminc_compile.specs.InnerMaking.{IsUnmadeAt, IsSafeSomewhere, IsOutcomeAt};

use crate::outcome::{Outcome, Unmade};
use crate::safety::SafeFun;
use jasminc_check::expanded_at;
use jasminc_source::function_at;
use jz_alloc::NoPlace;
use jz_code::NoCode;
use jz_data::Failure;
use jz_listing::Compiled;
use jz_tree::Text;
use jz_types::Typed;
use jz_unplaced::{Unplaced, named};
use jz_verdict::said;
use jz_whole_pipeline::{NotCompiled, Safe, compile_fun};
use std::alloc::{AllocError, Global};

/// The function as it is listed.
fn compile_safe(alloc: Global, safe: Safe) -> Result<Compiled, Failure<NotCompiled>>
    ensures made { IfOk result (IsCompiledFrom safe.expanded) }
    ensures refused { IfErr result (λ e. IfRefused e (IsRefusedFor safe.expanded.fun)) }
{
    let ct = said(alloc, safe.expanded())?;
    let compiled = compile_fun(alloc, safe, ct)?;
    Ok(compiled)
}

/// A refusal of the operations of the function at a place, by the names of its variables.
fn named_at(
    alloc: Global,
    typed: &Typed,
    place: usize,
    refused: NoPlace,
) -> Result<Unplaced, AllocError>
    requires { IsReadyAt typed.now.program place }
    ensures { IfOk result (IsNamedAt typed.now.program place refused) }
{
    let expanded = expanded_at(alloc, typed, place)?;
    let unplaced = named(alloc, expanded.fun(), refused)?;
    Ok(unplaced)
}

/// The name of the function at a place.
fn name_at(typed: &Typed, place: usize) -> Result<Text, AllocError>
    requires { IsReadyAt typed.now.program place }
    ensures { IfOk result (IsNameAt typed.now.program place) }
{
    let function = function_at(&typed.program().funs, place);
    let name = function.name.clone()?;
    Ok(name)
}

/// That the frame of the function at a place is too large.
fn frame_at(typed: &Typed, place: usize) -> Result<Unmade, AllocError>
    requires ready { IsReadyAt typed.now.program place }
    requires refused { IsRefusedAt typed.now.program place (uncompiled.Code no.Frame) }
    ensures { IfOk result (IsUnmadeAt typed.now.program place) }
{
    let name = name_at(typed, place)?;
    Ok(Unmade::Frame(name))
}

/// Why the operations of the function at a place are no code, by names.
fn uncoded_at(alloc: Global, typed: &Typed, place: usize, why: NoCode) -> Result<Unmade, AllocError>
    requires ready { IsReadyAt typed.now.program place }
    requires refused { IsRefusedAt typed.now.program place (uncompiled.Code why) }
    ensures { IfOk result (IsUnmadeAt typed.now.program place) }
{
    match why {
        NoCode::Frame => {
            let unmade = frame_at(typed, place)?;
            Ok(unmade)
        }
        NoCode::Place(refused) => {
            let unplaced = named_at(alloc, typed, place, refused)?;
            Ok(Unmade::NoPlace(unplaced))
        }
    }
}

/// Why the function at a place is not compiled, by names. One that is refused for the number of its
/// variables, as no text is that fits into memory, is answered as want of memory.
fn unmade_at(
    alloc: Global,
    typed: &Typed,
    place: usize,
    why: NotCompiled,
) -> Result<Unmade, AllocError>
    requires ready { IsReadyAt typed.now.program place }
    requires refused { IsRefusedAt typed.now.program place why }
    ensures { IfOk result (IsUnmadeAt typed.now.program place) }
{
    match why {
        NotCompiled::At(_) => Err(AllocError),
        NotCompiled::Code(code) => {
            let unmade = uncoded_at(alloc, typed, place, code)?;
            Ok(unmade)
        }
    }
}

/// What compiling a safe export function comes to.
pub(crate) fn outcome_of(alloc: Global, typed: &Typed, one: SafeFun) -> Result<Outcome, AllocError>
    requires { IsSafeSomewhere typed.now.program one }
    ensures { IfOk result (IsOutcomeAt typed.now.program one.place) }
{
    let SafeFun { place, safe } = one;
    match compile_safe(alloc, safe) {
        Ok(compiled) => Ok(Outcome::Made(compiled)),
        Err(Failure::OutOfMemory) => Err(AllocError),
        Err(Failure::Refused(why)) => {
            let unmade = unmade_at(alloc, typed, place, why)?;
            Ok(Outcome::Not(unmade))
        }
    }
}
