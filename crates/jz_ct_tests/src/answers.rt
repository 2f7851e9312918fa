//! What is told of a text.

ghost use Rattle.std.specs.Prelude.{IfOk};
ghost use Rattle.jz_texts.specs.Texts.{IsText};

use jz_breaches::first_breach;
use jz_expansion::expand;
use jz_inlining::is_export;
use jz_lex::lex;
use jz_parse::parse;
use jz_required::{Part, Reason, Required};
use jz_tree::{Failure, Fun, Var};
use jz_types::{Typed, check};
use std::alloc::{AllocError, Global};

/// The typed program that a text is, or why it is none.
fn typed_text(alloc: Global, text: &str) -> Result<Typed, &'static str>
    ensures { IfOk result (λ typed. IsText typed.program) }
{
    if text.len() > 1_048_576 {
        return Err("too long");
    }
    let Ok(tokens) = lex(alloc, text.as_bytes()) else {
        return Err("no tokens");
    };
    let Ok(program) = parse(alloc, &tokens) else {
        return Err("no program");
    };
    let Ok(typed) = check(alloc, program) else {
        return Err("not typed");
    };
    Ok(typed)
}

fn variable(var: &Var, out: &mut String) -> Result<(), AllocError> {
    out.push_str(var.name.as_str())?;
    match var.cell {
        None => Ok(()),
        Some(cell) => write!(out, "[{cell}]"),
    }
}

fn breach(found: &Required<'_>, out: &mut String) -> Result<(), AllocError> {
    write!(out, "no {}:{} ", found.span.line, found.span.col)?;
    let why = match found.why {
        Reason::Branch => "Branch ",
        Reason::Address => "Address ",
        Reason::Divide => "Divide ",
    };
    out.push_str(why)?;
    match found.part {
        Part::Memory => out.push_str("mem"),
        Part::Scalar(var) => variable(var, out),
        Part::Array(var) => variable(var, out),
    }
}

fn judged(alloc: Global, fun: &Fun, out: &mut String) -> Result<(), AllocError> {
    match first_breach(alloc, &fun.params, &fun.body)? {
        None => out.push_str("yes"),
        Some(found) => breach(&found, out),
    }
}

fn of_typed(alloc: Global, typed: &Typed, out: &mut String) -> Result<(), AllocError>
    requires { IsText typed.now.program }
{
    let last = typed.program().funs.len().saturating_sub(1);
    if !is_export(typed, last) {
        return out.push_str("no export function");
    }
    match expand(alloc, typed, last) {
        Ok(made) => judged(alloc, made.fun(), out),
        Err(Failure::Refused(_)) => out.push_str("a limit"),
        Err(Failure::OutOfMemory) => Err(AllocError),
    }
}

/// What is told of the last function of a text.
pub fn answer(alloc: Global, text: &str) -> Result<String, AllocError> {
    let mut out = String::new(alloc);
    match typed_text(alloc, text) {
        Ok(typed) => of_typed(alloc, &typed, &mut out)?,
        Err(word) => out.push_str(word)?,
    }
    Ok(out)
}
