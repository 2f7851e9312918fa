//! The export functions of a program, each after the other.

ghost use Rattle.std.specs.Prelude.{◌≡◌, ◌++◌, All, IfOk, IfErr, OnOk};
ghost use Rattle.jz_tree.specs.Failures.{IfRefused};
ghost use Rattle.jz_types.specs.TypedPrograms.{IsTypedProgram};
ghost use Rattle.jz_texts.specs.Texts.{IsText};
ghost use Rattle.jz_ct.specs.declared.judging.Ct.TheVariants as told;
ghost use Rattle.jasminc_source.specs.Exports.{WithinIfExported};
ghost use Rattle.jasminc_expansions.specs.Ready.{IsReadyAt, IsAmong};
ghost use Rattle.jasminc_ct.specs.Judging.{AreConstant, HasBreach, yes_line};
ghost use Rattle.jasminc_ct.specs.InnerJudging.{IsJudgedAt, AddsLine, BreachAt};

use crate::breaches::FunBreach;
use jasminc_expansions::expanded_at;
use jasminc_source::{function_at, is_exported};
use jz_ct::{Ct, judge};
use jz_io::Bytes;
use jz_tree::{Failure, Fun, Seq};
use jz_types::Typed;
use std::alloc::{AllocError, Global};

/// Whether it is constant time, or its first breach.
fn judge_at(alloc: Global, typed: &Typed, place: usize) -> Result<Ct, AllocError>
    requires { IsReadyAt typed.now.program place }
    ensures { IfOk result (IsJudgedAt typed.now.program place) }
{
    let expanded = expanded_at(alloc, typed, place)?;
    let ct = judge(alloc, &expanded)?;
    Ok(ct)
}

/// The line of a function that is constant time.
fn write_yes(out: &mut Vec<u8>, function: &Fun) -> Result<(), AllocError>
    ensures { OnOk result (out.new.items ≡ out.old.items ++ yes_line function.now) }
{
    out.extend_from_slice(b"ct ")?;
    out.extend_from_slice(function.name.as_str().as_bytes())?;
    out.extend_from_slice(b" yes\n")
}

/// The line of a function by what is told of it, or its breach as a refusal.
fn tell(out: &mut Vec<u8>, function: &Fun, ct: Ct) -> Result<(), Failure<FunBreach>>
    ensures yes { OnOk result (ct ≡ told.Yes) }
    ensures line { OnOk result (out.new.items ≡ out.old.items ++ yes_line function.now) }
    ensures breach { IfErr result (λ failure. IfRefused failure (λ found.
        (found.fun ≡ function.now.name) × (ct ≡ told.No found.breach))) }
{
    match ct {
        Ct::Yes => {
            write_yes(out, function)?;
            Ok(())
        }
        Ct::No(breach) => {
            let fun = function.name.clone()?;
            Err(Failure::Refused(FunBreach { fun, breach }))
        }
    }
}

/// The line of the function at a place, if it is exported.
fn add_line(
    alloc: Global,
    typed: &Typed,
    place: usize,
    out: &mut Vec<u8>,
) -> Result<(), Failure<FunBreach>>
    requires { IsAmong typed.now.program place }
    ensures yes { OnOk result (AddsLine typed.now.program place out.old.items out.new.items) }
    ensures breach { IfErr result (λ failure. IfRefused failure
        (BreachAt typed.now.program place)) }
{
    let function = function_at(&typed.program().funs, place);
    if !is_exported(function) {
        return Ok(());
    }
    let ct = judge_at(alloc, typed, place)?;
    tell(out, function, ct)?;
    Ok(())
}

/// A line for each export function of a program, each of which is constant time; or the first breach
/// of the first that is not.
pub fn judge_functions(alloc: Global, typed: &Typed) -> Result<Bytes, Failure<FunBreach>>
    requires typed { IsTypedProgram typed.now.program }
    requires text { IsText typed.now.program }
    requires within { All (WithinIfExported typed.now.program) typed.now.program.funs }
    ensures yes { IfOk result (AreConstant typed.now.program typed.now.program.funs) }
    ensures breach { IfErr result (λ failure. IfRefused failure (HasBreach typed.now.program)) }
{
    let mut out = Vec::new(alloc);
    for place in 0..typed.program().funs.len() {
        add_line(alloc, typed, place, &mut out)?;
    }
    Ok(Seq::from_vec(out))
}
