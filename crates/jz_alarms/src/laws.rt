//! Alarms and runs.

ghost use Rattle.jz_alarms.specs.AlarmLaws.{MetIsCalm, OneFirstAlarm};

/// A function has one first alarm, or none.
pub fn one_first_alarm()
    ensures { OneFirstAlarm }
{}

/// Where the facts hold of a state and give the conditions of an expression, its evaluation is not
/// stuck outside an array, nor by a division.
pub fn conditions_keep_runs_calm()
    ensures { MetIsCalm }
{}
