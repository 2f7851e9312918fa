//! From a text to the text of a run.

ghost use Rattle.std.specs.Prelude.{◌≤◌, length};
ghost use Rattle.jz_tree.specs.Failures.{IfAnswered};
ghost use Rattle.jasminc_source.specs.Texts.{source_limit};
ghost use Rattle.jasminc_interp.specs.Answers.{Answers};

use crate::refused::Refused;
use crate::running::run_function;
use crate::telling::Ran;
use jasminc_source::{as_refused, place_of, typed_program, within_limits};
use jz_items::Item;
use jz_tree::{Failure, Seq, Text};
use std::alloc::Global;

/// The run of the export function of that name on items, with at most so many turns of `while`; or
/// the first reason why it is not run.
pub fn interp_text(
    alloc: Global,
    text: &[u8],
    fun: &str,
    items: &Seq<Item>,
    fuel: u64,
) -> Result<Ran, Failure<Refused>>
    requires { length text.now ≤ source_limit }
    ensures { IfAnswered result (Answers text.now fun.now items.now fuel) }
{
    let typed = as_refused(typed_program(alloc, text), Refused::Unread)?;
    let tree = typed.program();
    let Some(place) = place_of(&tree.funs, fun) else {
        let name = Text::from_string(String::from_str(alloc, fun)?);
        return Err(Failure::Refused(Refused::NoFunction(name)));
    };
    as_refused(within_limits(alloc, tree), Refused::Limit)?;
    run_function(alloc, &typed, place, items, fuel)
}
