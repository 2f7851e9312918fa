//! What is asked of a text, and the answer.

ghost use Rattle.std.specs.Prelude.{IfOk};
ghost use Rattle.jz_texts.specs.Texts.{IsText};
ghost use Rattle.jz_inlining.specs.Inlined.{IsExport};

use crate::changes::steps;
use crate::outcomes::{Given, NOTHING, runs};
use crate::printing::{columns, statements, variables};
use crate::showing::{at, limit};
use jz_expansion::expand;
use jz_inlining::{Inlined, inline, is_export};
use jz_lex::lex;
use jz_parse::parse;
use jz_scalars::scalars;
use jz_tree::{Failure, Fun};
use jz_types::{Typed, check};
use jz_unrolling::unroll;
use std::alloc::{AllocError, Global};

/// What is asked of the last function of a text.
#[derive(Clone, Copy)]
pub enum Asked {
    Inlined,
    Columns,
    Unrolled,
    Scalars,
    Expanded,
    Count,
}

fn asked_by(word: &str) -> Option<Asked> {
    match word {
        "inline" => Some(Asked::Inlined),
        "columns" => Some(Asked::Columns),
        "unroll" => Some(Asked::Unrolled),
        "scalars" => Some(Asked::Scalars),
        "expand" => Some(Asked::Expanded),
        "count" => Some(Asked::Count),
        _ => None,
    }
}

/// What is asked of a text, and the answer that is wanted.
#[derive(Clone, Copy)]
pub struct Row<'a> {
    pub asked: Asked,
    pub text: &'a str,
    pub given: Given<'a>,
    pub wanted: &'a str,
}

/// The row of a line, where it is one. What is run has arguments.
pub fn row_of(line: &str) -> Option<Row<'_>> {
    let (word, rest) = line.split_once(' ')?;
    let asked = asked_by(word)?;
    let (text, rest) = rest.split_once(" => ")?;
    let (given, wanted) = match asked {
        Asked::Columns => (NOTHING, rest),
        Asked::Unrolled => (NOTHING, rest),
        Asked::Count => (NOTHING, rest),
        _ => given_by(rest)?,
    };
    Some(Row {
        asked,
        text,
        given,
        wanted,
    })
}

fn given_by(rest: &str) -> Option<(Given<'_>, &str)> {
    let (words, rest) = rest.split_once(" => ")?;
    let (turns, rest) = rest.split_once(" => ")?;
    let turns = turns.parse::<u64>().ok()?;
    Some((Given { words, turns }, rest))
}

/// The typed program that a text is, or why it is none.
fn typed_text(alloc: Global, text: &str) -> Result<Typed, &'static str>
    ensures { IfOk result (λ typed. IsText typed.program) }
{
    if text.len() > 1_048_576 {
        return Err("too long");
    }
    let Ok(tokens) = lex(alloc, text.as_bytes()) else {
        return Err("no tokens");
    };
    let Ok(program) = parse(alloc, &tokens) else {
        return Err("no program");
    };
    let Ok(typed) = check(alloc, program) else {
        return Err("not typed");
    };
    Ok(typed)
}

/// The answer to a row.
pub fn answer(alloc: Global, row: &Row<'_>) -> Result<String, AllocError> {
    let mut out = String::new(alloc);
    match typed_text(alloc, row.text) {
        Ok(typed) => answer_typed(alloc, row, &typed, &mut out)?,
        Err(word) => out.push_str(word)?,
    }
    Ok(out)
}

fn answer_typed(
    alloc: Global,
    row: &Row<'_>,
    typed: &Typed,
    out: &mut String,
) -> Result<(), AllocError>
    requires { IsText typed.now.program }
{
    let last = typed.program().funs.len().saturating_sub(1);
    if !is_export(typed, last) {
        return out.push_str("no export function");
    }
    match row.asked {
        Asked::Expanded => expanded(alloc, row, typed, last, out),
        Asked::Count => expanded(alloc, row, typed, last, out),
        _ => match inline(alloc, typed, last) {
            Ok(inlined) => after_calls(alloc, row, typed, &inlined, out),
            Err(Failure::Refused(_)) => out.push_str("Expand"),
            Err(Failure::OutOfMemory) => Err(AllocError),
        },
    }
}

/// What is asked of a function without calls.
fn after_calls(
    alloc: Global,
    row: &Row<'_>,
    typed: &Typed,
    inlined: &Inlined,
    out: &mut String,
) -> Result<(), AllocError> {
    match row.asked {
        Asked::Inlined => {
            statements(&inlined.fun.body, out)?;
            write!(out, " => {}; ", inlined.extent.count)?;
            variables(&inlined.fun.vars, out)?;
            runs(alloc, row.given, typed, &inlined.fun, out)
        }
        Asked::Columns => columns(&inlined.fun.body, out),
        Asked::Unrolled => unrolled(alloc, &inlined.fun, out),
        _ => with_scalars(alloc, row, typed, &inlined.fun, out),
    }
}

fn unrolled(alloc: Global, fun: &Fun, out: &mut String) -> Result<(), AllocError> {
    match unroll(alloc, fun) {
        Ok(made) => {
            statements(&made.program.body, out)?;
            out.push_str(" => ")?;
            steps(&made.change, out)
        }
        Err(Failure::Refused(place)) => at("refused", place, out),
        Err(Failure::OutOfMemory) => Err(AllocError),
    }
}

fn with_scalars(
    alloc: Global,
    row: &Row<'_>,
    typed: &Typed,
    fun: &Fun,
    out: &mut String,
) -> Result<(), AllocError> {
    let made = scalars(alloc, fun)?;
    statements(&made.program.body, out)?;
    out.push_str(" => ")?;
    steps(&made.change, out)?;
    runs(alloc, row.given, typed, &made.program, out)
}

fn expanded(
    alloc: Global,
    row: &Row<'_>,
    typed: &Typed,
    last: usize,
    out: &mut String,
) -> Result<(), AllocError>
    requires export { IsExport typed.now.program last }
    requires text { IsText typed.now.program }
{
    match expand(alloc, typed, last) {
        Ok(made) => match row.asked {
            Asked::Count => write!(out, "{}", made.count()),
            _ => {
                statements(&made.fun().body, out)?;
                write!(out, " => {}", made.count())?;
                runs(alloc, row.given, typed, made.fun(), out)
            }
        },
        Err(Failure::Refused(found)) => limit(found, out),
        Err(Failure::OutOfMemory) => Err(AllocError),
    }
}
