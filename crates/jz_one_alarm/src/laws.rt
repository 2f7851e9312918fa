//! Alarms and constants.

ghost use Rattle.jz_one_alarm.specs.SetLaws.{OneAlarmOfSet};

/// What is given of a function has one first alarm, or none, in whatever order its constants stand
/// and however often.
pub fn one_alarm_of_a_set()
    ensures { OneAlarmOfSet }
{}
