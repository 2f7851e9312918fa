//! From a text to its compiled functions.

ghost use Rattle.std.specs.Prelude.{◌≤◌, length};
ghost use Rattle.jz_tree.specs.Failures.{IfAnswered};
ghost use Rattle.jasminc_source.specs.Texts.{source_limit};
ghost use Rattle.jasminc_compile.specs.Answers.{Answers};

use crate::functions::compile_functions;
use crate::refused::Refused;
use crate::safety::safe_functions;
use jasminc_source::{as_refused, typed_program, within_limits};
use jz_io::Bytes;
use jz_listing::{Compiled, listing};
use jz_tree::{Failure, Seq};
use std::alloc::Global;

/// The compiled export functions of a text, in its order, and their listing.
#[derive(Drop)]
pub struct Compilation {
    pub functions: Seq<Compiled>,
    pub listing: Bytes,
}

/// The export functions of a text as bytes, with their listing; or the first reason why one of them
/// is not compiled. Each stage is done for all of them before the next.
pub fn compile_text(alloc: Global, text: &[u8]) -> Result<Compilation, Failure<Refused>>
    requires { length text.now ≤ source_limit }
    ensures { IfAnswered result (Answers text.now) }
{
    let typed = as_refused(typed_program(alloc, text), Refused::Unread)?;
    as_refused(within_limits(alloc, typed.program()), Refused::Limit)?;
    let safes = as_refused(safe_functions(alloc, &typed), Refused::Alarm)?;
    let functions = as_refused(compile_functions(alloc, &typed, safes), Refused::Making)?;
    let listing = listing(alloc, functions.as_slice())?;
    Ok(Compilation { functions, listing })
}
