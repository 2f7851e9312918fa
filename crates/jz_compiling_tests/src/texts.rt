//! From a text to its compiled function.

ghost use Rattle.std.specs.Prelude.{IfOk};
ghost use Rattle.jz_texts.specs.Texts.{IsText};

use jz_compiling::{NotCompiled, compile_expanded};
use jz_expansion::expand;
use jz_inlining::is_export;
use jz_io::Ct;
use jz_lex::lex;
use jz_listing::Compiled;
use jz_parse::parse;
use jz_tree::Failure;
use jz_types::{Typed, check};
use std::alloc::{AllocError, Global};

/// The typed program that a text is, or why it is none.
pub fn typed_text(alloc: Global, text: &str) -> Result<Typed, &'static str>
    ensures { IfOk result (λ typed. IsText typed.program) }
{
    if text.len() > 1_048_576 {
        return Err("too long");
    }
    let Ok(tokens) = lex(alloc, text.as_bytes()) else {
        return Err("no tokens");
    };
    let Ok(program) = parse(alloc, &tokens) else {
        return Err("no program");
    };
    let Ok(typed) = check(alloc, program) else {
        return Err("not typed");
    };
    Ok(typed)
}

/// What becomes of the last function of a text.
#[derive(Drop)]
pub enum Answer {
    Made(Compiled),
    Refused(NotCompiled),
    /// It is not compiled at all.
    None(&'static str),
}

/// What becomes of the last function of a text.
pub fn compiled_text(alloc: Global, typed: &Typed) -> Result<Answer, AllocError>
    requires { IsText typed.now.program }
{
    let last = typed.program().funs.len().saturating_sub(1);
    if !is_export(typed, last) {
        return Ok(Answer::None("no export function"));
    }
    let expanded = match expand(alloc, typed, last) {
        Ok(expanded) => expanded,
        Err(Failure::Refused(_)) => return Ok(Answer::None("passes a limit")),
        Err(Failure::OutOfMemory) => return Err(AllocError),
    };
    let (fun, change) = expanded.into_parts();
    match compile_expanded(alloc, &fun, change, Ct::Yes) {
        Ok(compiled) => Ok(Answer::Made(compiled)),
        Err(Failure::Refused(why)) => Ok(Answer::Refused(why)),
        Err(Failure::OutOfMemory) => Err(AllocError),
    }
}
