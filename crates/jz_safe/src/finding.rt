//! The search for an alarm.

ghost use Rattle.std.specs.Prelude.{◌≡◌, None, Some, IfOk, IfErr};
ghost use Rattle.jz_tree.specs.Failures.{IfRefused};
ghost use Rattle.jz_preconditions.specs.Stating.{preconditions_of};
ghost use Rattle.jz_asked.specs.Asked.{alarm_of};
ghost use Rattle.jz_first_alarm.specs.FirstAlarms.{HasFirstAlarm};
ghost use Rattle.jz_safe.specs.Texts.{IsOfText};

use crate::certificate::Safe;
use jz_asked::Alarm;
use jz_first_alarm::first_alarm;
use jz_one_expansion::Expanded;
use jz_stated::stated;
use jz_tree::Failure;
use std::alloc::Global;

/// The same expansion, where it has no alarm under its preconditions; else the first alarm. The
/// stack grows with the nesting of the text.
pub fn safe(alloc: Global, expanded: Expanded) -> Result<Safe, Failure<Alarm>>
    requires { IsOfText expanded }
    ensures same { IfOk result (λ s. s.expanded ≡ expanded) }
    ensures none { IfOk result (λ s. HasFirstAlarm expanded.fun
        (preconditions_of expanded.fun) None) }
    ensures some { IfErr result (λ failure. IfRefused failure (λ alarm.
        HasFirstAlarm expanded.fun (preconditions_of expanded.fun) (Some (alarm_of alarm)))) }
{
    let function = expanded.fun();
    let pres = stated(alloc, function)?;
    first_alarm(alloc, function, &pres)?;
    Ok(Safe { expanded })
}
