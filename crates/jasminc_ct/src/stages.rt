//! From a text to the lines of its functions.

ghost use Rattle.std.specs.Prelude.{◌≤◌, length};
ghost use Rattle.jz_tree.specs.Failures.{IfAnswered};
ghost use Rattle.jasminc_source.specs.Texts.{source_limit};
ghost use Rattle.jasminc_ct.specs.Answers.{Answers};

use crate::functions::judge_functions;
use crate::refused::Refused;
use jasminc_source::{as_refused, typed_program, within_limits};
use jz_io::Bytes;
use jz_tree::Failure;
use std::alloc::Global;

/// A line `ct NAME yes` for each export function of a text, in the order of the text; or the first
/// reason why one of them is not known to be constant time.
pub fn ct_text(alloc: Global, text: &[u8]) -> Result<Bytes, Failure<Refused>>
    requires { length text.now ≤ source_limit }
    ensures { IfAnswered result (Answers text.now) }
{
    let typed = as_refused(typed_program(alloc, text), Refused::Unread)?;
    as_refused(within_limits(alloc, typed.program()), Refused::Limit)?;
    let lines = as_refused(judge_functions(alloc, &typed), Refused::Breach)?;
    Ok(lines)
}
