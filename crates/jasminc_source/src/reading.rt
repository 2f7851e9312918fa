//! The typed program of a text.

ghost use Rattle.std.specs.Prelude.{◌≤◌, IfOk, IfErr, length};
ghost use Rattle.jz_tree.specs.Failures.{IfRefused};
ghost use Rattle.jasminc_source.specs.Texts.{source_limit, TypesAs};
ghost use Rattle.jasminc_source.specs.Unreadable.{IsUnread};

use crate::stage::as_refused;
use crate::unread::Unread;
use jz_grammar::lex;
use jz_parse::parse;
use jz_tree::Failure;
use jz_types::{Typed, check};
use std::alloc::Global;

/// The typed program of a text in the whole language.
pub fn typed_program(alloc: Global, text: &[u8]) -> Result<Typed, Failure<Unread>>
    requires { length text.now ≤ source_limit }
    ensures program { IfOk result (λ typed. TypesAs text.now typed.program) }
    ensures refused { IfErr result (λ e. IfRefused e (IsUnread text.now)) }
{
    let tokens = as_refused(lex(alloc, text), Unread::Lex)?;
    let program = as_refused(parse(alloc, &tokens), Unread::Parse)?;
    let typed = as_refused(check(alloc, program), Unread::Typing)?;
    Ok(typed)
}
