//! The line of an alarm.

ghost use Rattle.std.specs.Prelude.{◌≡◌, ◌++◌, OnOk};
ghost use Rattle.jasminc_check.specs.AlarmLines.{kind_name, target_text, alarm_line};

use jz_asked::{Alarm, Target};
use jz_meaning::Why;
use jz_text::write_span;
use jz_variable_text::write_variable;
use std::alloc::AllocError;

#[tactic(auto, unfolding(crate::specs::AlarmLines::kind_name))]
fn kind_name(why: Why) -> &'static str
    ensures { result.now ≡ kind_name why }
{
    match why {
        Why::Bounds => "Bounds",
        Why::Address => "Address",
        Why::Align => "Align",
        Why::Init => "Init",
        Why::Divide => "Divide",
    }
}

fn write_target(line: &mut Vec<u8>, target: &Target) -> Result<(), AllocError>
    ensures { OnOk result (line.new.items ≡ line.old.items ++ target_text target.now) }
{
    match target {
        Target::Variable(name, cell) => write_variable(line, name, *cell),
        Target::Memory => line.extend_from_slice(b"mem"),
        Target::Division => line.extend_from_slice(b"div"),
    }
}

/// The line of an alarm, without its line feed.
pub fn write_alarm(line: &mut Vec<u8>, alarm: &Alarm) -> Result<(), AllocError>
    ensures { OnOk result (line.new.items ≡ line.old.items ++ alarm_line alarm.now) }
{
    line.extend_from_slice(b"alarm ")?;
    write_span(line, alarm.span)?;
    line.extend_from_slice(b" ")?;
    line.extend_from_slice(kind_name(alarm.why).as_bytes())?;
    line.extend_from_slice(b" ")?;
    write_target(line, &alarm.target)
}
