//! From a text to the lines of its safe functions.

ghost use Rattle.std.specs.Prelude.{◌≤◌, length};
ghost use Rattle.jz_tree.specs.Failures.{IfAnswered};
ghost use Rattle.jasminc_source.specs.Texts.{source_limit};
ghost use Rattle.jasminc_check.specs.Answers.{Answers};

use crate::functions::check_functions;
use crate::refused::Refused;
use jasminc_source::{as_refused, typed_program, within_limits};
use jz_io::Bytes;
use jz_tree::Failure;
use std::alloc::Global;

/// A line `safe NAME COUNT` for each export function of a text, in the order of the text; or the
/// first reason why one of them is not known to be safe.
pub fn check_text(alloc: Global, text: &[u8]) -> Result<Bytes, Failure<Refused>>
    requires { length text.now ≤ source_limit }
    ensures { IfAnswered result (Answers text.now) }
{
    let typed = as_refused(typed_program(alloc, text), Refused::Unread)?;
    as_refused(within_limits(alloc, typed.program()), Refused::Limit)?;
    let lines = as_refused(check_functions(alloc, &typed), Refused::Alarm)?;
    Ok(lines)
}
