//! The first alarm of a function.

ghost use Rattle.std.specs.Prelude.{◌≡◌, ◌≤◌, OnOk, IfErr, None, Some, map, length};
ghost use Rattle.jz_tree.specs.Failures.{IfRefused};
ghost use Rattle.jz_fact_sets.specs.Kept.{AreDifferent, given_of};
ghost use Rattle.jz_test_facts.specs.Comparing.{AreWords};
ghost use Rattle.jz_given.specs.Giving.{param_of};
ghost use Rattle.jz_block_facts.specs.Heads.{HasNoFor, plain_block};
ghost use Rattle.jz_alarms.specs.Alarms.{IsFirstAlarm};
ghost use Rattle.jz_asked.specs.Asked.{alarm_of};
ghost use Rattle.jz_first_alarm.specs.FirstAlarms.{HasFirstAlarm};

use crate::arms::Known;
use crate::asking::refuse;
use crate::walk::ask_block;
use jz_annotations::Pre;
use jz_asked::{Alarm, asks_results};
use jz_block_facts::heads_of;
use jz_fact_sets::{Given, Saying};
use jz_fact_steps::at_entry;
use jz_given::given_of as stated;
use jz_tree::{Failure, Fun, Seq};
use std::alloc::Global;

/// The first alarm of a function by what is given of it: that of its body, or else of its results.
fn ask_function<'a>(alloc: Global, given: &'a Given, fun: &'a Fun) -> Result<(), Failure<Alarm>>
    requires different { AreDifferent given.now.params }
    requires few { length given.now.params ≤ 64 }
    requires words { AreWords given.now.constants }
    requires plain { HasNoFor (plain_block fun.now.body) }
    ensures none { OnOk result (IsFirstAlarm (given_of given.now) (plain_block fun.now.body)
        fun.now.result None) }
    ensures some { IfErr result (λ failure. IfRefused failure (λ alarm.
        IsFirstAlarm (given_of given.now) (plain_block fun.now.body) fun.now.result
        (Some (alarm_of alarm)))) }
{
    let mut set = at_entry(alloc, given)?;
    let heads = heads_of(given, &mut set, &fun.body)?;
    let known = Known {
        given,
        heads: heads.as_slice(),
    };
    ask_block(known, &mut set, 0, &fun.body)?;
    let says = Saying { given, set: &set };
    let found = asks_results(says, &fun.result)?;
    refuse(found)?;
    Ok(())
}

/// Nothing, where no condition of a function without `for` and calls is left open by the facts under
/// its preconditions; else the first that is. The stack grows with the nesting of the text.
pub fn first_alarm(alloc: Global, fun: &Fun, pres: &Seq<Pre>) -> Result<(), Failure<Alarm>>
    requires different { AreDifferent (map (param_of pres.now) fun.now.params) }
    requires few { length fun.now.params ≤ 64 }
    requires plain { HasNoFor (plain_block fun.now.body) }
    ensures none { OnOk result (HasFirstAlarm fun.now pres.now None) }
    ensures some { IfErr result (λ failure. IfRefused failure (λ alarm.
        HasFirstAlarm fun.now pres.now (Some (alarm_of alarm)))) }
{
    let given = stated(alloc, fun, pres)?;
    ask_function(alloc, &given, fun)?;
    Ok(())
}
