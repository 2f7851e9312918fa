//! What a line of standard input asks, and the answer.

use crate::agreement::agreement;
use crate::commands::{NO_FAULTS, push_words, run};
use crate::escapes::push_written;
use std::alloc::{AllocError, Global};

/// What is asked over the text above a row.
#[derive(Clone, Copy)]
pub enum Question<'a> {
    /// What a command of these words answers.
    Run(&'a str),
    /// Whether the commands agree on a function and its items.
    Agree(&'a str),
}

/// What is asked, and the answer that is wanted.
#[derive(Clone, Copy)]
pub struct Row<'a> {
    pub question: Question<'a>,
    pub wanted: &'a str,
}

/// A line of standard input.
#[derive(Clone, Copy)]
pub enum Line<'a> {
    /// What the rows below are about.
    About,
    /// The text of the rows below.
    Text(&'a str),
    Row(Row<'a>),
    /// It is none of these.
    None,
}

fn row_of(line: &str) -> Option<Row<'_>> {
    let (asked, wanted) = line.split_once("=> ")?;
    let (word, words) = asked.split_once(' ')?;
    let question = match word {
        "run" => Question::Run(words),
        "agree" => Question::Agree(words),
        _ => return None,
    };
    Some(Row { question, wanted })
}

/// What a line says.
pub fn line_of(line: &str) -> Line<'_> {
    if line.starts_with('#') {
        return Line::About;
    }
    if let Some(text) = line.strip_prefix("text ") {
        return Line::Text(text);
    }
    row_of(line).map_or(Line::None, Line::Row)
}

fn command_answer(alloc: Global, line: &str, text: &[u8]) -> Result<String, AllocError> {
    let mut words = Vec::new(alloc);
    push_words(&mut words, line)?;
    let ran = run(alloc, words.as_slice(), text, &NO_FAULTS)?;
    let mut out = String::new(alloc);
    let (status, made) = (ran.status as u8, ran.made.len());
    let (source, sink) = (ran.source_faults, ran.sink_faults);
    write!(out, "{status} {made} {source} {sink} ")?;
    push_written(&mut out, ran.written.as_slice())?;
    Ok(out)
}

/// The answer to a row over a text.
pub fn answer(alloc: Global, row: &Row<'_>, text: &[u8]) -> Result<String, AllocError> {
    match row.question {
        Question::Run(words) => command_answer(alloc, words, text),
        Question::Agree(words) => String::from_str(alloc, agreement(alloc, words, text)?),
    }
}
