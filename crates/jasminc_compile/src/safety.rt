//! The safety of export functions, each after the other.

ghost use Rattle.std.specs.Prelude.{ℕ, All, Some, IfOk, IfErr, OnOk};
ghost use Rattle.jz_tree.specs.Failures.{IfRefused};
ghost use Rattle.jz_types.specs.TypedPrograms.{IsTypedProgram};
ghost use Rattle.jz_texts.specs.Texts.{IsText};
ghost use Rattle.jz_asked.specs.Asked.{alarm_of};
ghost use Rattle.jasminc_source.specs.Exports.{WithinIfExported};
ghost use Rattle.jasminc_check.specs.Ready.{IsReadyAt, IsAmong};
ghost use Rattle.jasminc_check.specs.Safety.{HasAlarm};
ghost use Rattle.jasminc_check.specs.InnerSafety.{IsJudgedAt, AlarmAt};
ghost use Rattle.jasminc_compile.specs.InnerSafety.{IsSafeAt, AddsSafe};
ghost use Rattle.jasminc_compile.specs.SafeFunctions.{AreSafe};

use jasminc_check::expanded_at;
use jasminc_source::{function_at, is_exported};
use jz_asked::Alarm;
use jz_tree::{Failure, Seq};
use jz_types::Typed;
use jz_whole_pipeline::{Safe, safe};
use std::alloc::Global;

/// The expansion of the export function at a place of a text, found to have no alarm.
#[derive(Drop)]
pub struct SafeFun {
    pub(crate) place: usize,
    pub(crate) safe: Safe,
}

/// The expansion of an export function within the limits, or its first alarm.
fn safe_at(alloc: Global, typed: &Typed, place: usize) -> Result<Safe, Failure<Alarm>>
    requires { IsReadyAt typed.now.program place }
    ensures safe { IfOk result (IsSafeAt typed.now.program place) }
    ensures alarm { IfErr result (λ failure. IfRefused failure (λ alarm. (count : ℕ)
        × IsJudgedAt typed.now.program place count (Some (alarm_of alarm)))) }
{
    let expanded = expanded_at(alloc, typed, place)?;
    let found = safe(alloc, expanded)?;
    Ok(found)
}

/// One function more, if the one at this place is exported.
fn add_safe(
    alloc: Global,
    typed: &Typed,
    place: usize,
    out: &mut Seq<SafeFun>,
) -> Result<(), Failure<Alarm>>
    requires { IsAmong typed.now.program place }
    ensures safe { OnOk result (AddsSafe typed.now.program place out.old out.new) }
    ensures alarm { IfErr result (λ failure. IfRefused failure
        (AlarmAt typed.now.program place)) }
{
    let function = function_at(&typed.program().funs, place);
    if !is_exported(function) {
        return Ok(());
    }
    let safe = safe_at(alloc, typed, place)?;
    out.push(SafeFun { place, safe })?;
    Ok(())
}

/// The export functions of a program, each of which is safe; or the first alarm of the first that
/// is not.
pub fn safe_functions(alloc: Global, typed: &Typed) -> Result<Seq<SafeFun>, Failure<Alarm>>
    requires typed { IsTypedProgram typed.now.program }
    requires text { IsText typed.now.program }
    requires within { All (WithinIfExported typed.now.program) typed.now.program.funs }
    ensures safe { IfOk result (AreSafe typed.now.program) }
    ensures alarm { IfErr result (λ failure. IfRefused failure (HasAlarm typed.now.program)) }
{
    let mut out = Seq::new(alloc);
    for place in 0..typed.program().funs.len() {
        add_safe(alloc, typed, place, &mut out)?;
    }
    Ok(out)
}
