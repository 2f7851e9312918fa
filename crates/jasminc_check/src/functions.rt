//! The export functions of a program, each after the other.

ghost use Rattle.std.specs.Prelude.{◌≡◌, ◌++◌, ℕ, All, None, Some, IfOk, IfErr, OnOk};
ghost use Rattle.jz_tree.specs.Failures.{IfRefused};
ghost use Rattle.jz_types.specs.TypedPrograms.{IsTypedProgram};
ghost use Rattle.jz_texts.specs.Texts.{IsText};
ghost use Rattle.jz_asked.specs.Asked.{alarm_of};
ghost use Rattle.jasminc_source.specs.Exports.{WithinIfExported};
ghost use Rattle.jasminc_expansions.specs.Ready.{IsReadyAt, IsAmong};
ghost use Rattle.jasminc_check.specs.Safety.{AreSafe, HasAlarm, safe_line};
ghost use Rattle.jasminc_check.specs.InnerSafety.{IsJudgedAt, AddsLine, AlarmAt};

use jasminc_expansions::expanded_at;
use jasminc_source::{function_at, is_exported};
use jz_asked::Alarm;
use jz_first_alarm::first_alarm;
use jz_io::Bytes;
use jz_stated::stated;
use jz_text::write_number;
use jz_tree::{Failure, Fun, Seq};
use jz_types::Typed;
use std::alloc::{AllocError, Global};

/// How many statements a safe function has in expanded order, or its first alarm.
fn judge_at(alloc: Global, typed: &Typed, place: usize) -> Result<usize, Failure<Alarm>>
    requires { IsReadyAt typed.now.program place }
    ensures safe { IfOk result (λ count. IsJudgedAt typed.now.program place count None) }
    ensures alarm { IfErr result (λ failure. IfRefused failure (λ alarm. (count : ℕ)
        × IsJudgedAt typed.now.program place count (Some (alarm_of alarm)))) }
{
    let function = function_at(&typed.program().funs, place);
    let pres = stated(alloc, function)?;
    let expanded = expanded_at(alloc, typed, place)?;
    first_alarm(alloc, expanded.fun(), &pres)?;
    Ok(expanded.count())
}

/// The line of a safe function.
fn write_safe(out: &mut Vec<u8>, function: &Fun, count: usize) -> Result<(), AllocError>
    ensures { OnOk result (out.new.items ≡ out.old.items ++ safe_line function.now count) }
{
    out.extend_from_slice(b"safe ")?;
    out.extend_from_slice(function.name.as_str().as_bytes())?;
    out.extend_from_slice(b" ")?;
    write_number(out, count as u64)?;
    out.extend_from_slice(b"\n")
}

/// The line of the function at a place, if it is exported.
fn add_line(
    alloc: Global,
    typed: &Typed,
    place: usize,
    out: &mut Vec<u8>,
) -> Result<(), Failure<Alarm>>
    requires { IsAmong typed.now.program place }
    ensures safe { OnOk result (AddsLine typed.now.program place out.old.items out.new.items) }
    ensures alarm { IfErr result (λ failure. IfRefused failure
        (AlarmAt typed.now.program place)) }
{
    let function = function_at(&typed.program().funs, place);
    if !is_exported(function) {
        return Ok(());
    }
    let count = judge_at(alloc, typed, place)?;
    write_safe(out, function, count)?;
    Ok(())
}

/// A line for each export function of a program, each of which is safe; or the first alarm of the
/// first that is not.
pub fn check_functions(alloc: Global, typed: &Typed) -> Result<Bytes, Failure<Alarm>>
    requires typed { IsTypedProgram typed.now.program }
    requires text { IsText typed.now.program }
    requires within { All (WithinIfExported typed.now.program) typed.now.program.funs }
    ensures safe { IfOk result (AreSafe typed.now.program typed.now.program.funs) }
    ensures alarm { IfErr result (λ failure. IfRefused failure (HasAlarm typed.now.program)) }
{
    let mut out = Vec::new(alloc);
    for place in 0..typed.program().funs.len() {
        add_line(alloc, typed, place, &mut out)?;
    }
    Ok(Seq::from_vec(out))
}
