//! The function of a row.

use crate::names::reg_named;
use crate::operations::Row;
use jz_data::Seq;
use jz_io::Span;
use jz_place::{Node, Passed, Test};
use std::alloc::{AllocError, Global};

/// What a block is a part of.
#[derive(Drop)]
enum Block {
    Whole,
    Then(Test),
    Else(Test, Seq<Node>),
    Prologue(bool),
    Body(bool, Seq<Node>, Test),
}

/// A block that is not closed.
#[derive(Drop)]
struct Part {
    open: Block,
    nodes: Seq<Node>,
}

/// The blocks that are not closed, how many operations there are, what is passed, and where each
/// stack variable stands.
#[derive(Drop)]
struct Reading {
    parts: Vec<Part>,
    count: u32,
    entry: Seq<Passed>,
    results: Seq<Passed>,
    slots: Vec<u32>,
}

/// The parameters, the body and the results of a function, and how far above the stack pointer each
/// stack variable stands.
#[derive(Drop)]
pub struct Read {
    pub entry: Seq<Passed>,
    pub body: Seq<Node>,
    pub results: Seq<Passed>,
    pub slots: Vec<u32>,
}

/// Adds a part of a body to the block that was opened last.
fn add(parts: &mut Vec<Part>, node: Node) -> Result<(), AllocError> {
    match parts.pop() {
        None => Ok(()),
        Some(Part { open, mut nodes }) => {
            nodes.push(node)?;
            parts.push(Part { open, nodes })?;
            Ok(())
        }
    }
}

fn open(alloc: Global, parts: &mut Vec<Part>, open: Block) -> Result<(), AllocError> {
    let nodes = Seq::new(alloc);
    parts.push(Part { open, nodes })?;
    Ok(())
}

/// What is closed by `else` or `test` opens what follows; `end` makes a branch or a loop of it.
fn close(alloc: Global, parts: &mut Vec<Part>, test: Test) -> Result<(), AllocError> {
    match parts.pop() {
        None => Ok(()),
        Some(Part { open: kind, nodes }) => match kind {
            Block::Whole => {
                parts.push(Part {
                    open: Block::Whole,
                    nodes,
                })?;
                Ok(())
            }
            Block::Then(test) => open(alloc, parts, Block::Else(test, nodes)),
            Block::Prologue(bare) => open(alloc, parts, Block::Body(bare, nodes, test)),
            Block::Else(test, yes) => add(parts, Node::If(test, yes, nodes)),
            Block::Body(bare, prologue, test) => {
                add(parts, Node::While(bare, prologue, test, nodes))
            }
        },
    }
}

impl Reading {
    /// What stands next.
    fn row<'a>(&mut self, letters: &'a [u8]) -> Row<'a> {
        self.count = self.count.saturating_add(1);
        Row {
            letters,
            span: Span {
                line: self.count,
                col: 1,
            },
        }
    }

    /// `x=rdi,y=rsi`, each where it stands next.
    fn passed(
        &mut self,
        alloc: Global,
        letters: &[u8],
        text: &str,
    ) -> Result<Seq<Passed>, AllocError> {
        let mut all = Seq::new(alloc);
        for pair in text.split(',') {
            let (letter, name) = pair.split_once('=').unwrap_or(("", ""));
            let reg = reg_named(name);
            match self.row(letters).pinned(letter) {
                Some(variable) => all.push(Passed { variable, reg })?,
                None => {}
            }
        }
        Ok(all)
    }

    fn stands(&mut self, text: &str) -> Result<(), AllocError> {
        for slot in text.split(',') {
            self.slots.push(slot.parse().unwrap_or(0))?;
        }
        Ok(())
    }

    fn word(&mut self, alloc: Global, letters: &[u8], word: &str) -> Result<(), AllocError> {
        let (kind, rest) = word.split_once(':').unwrap_or((word, ""));
        match kind {
            "in" => {
                let entry = self.passed(alloc, letters, rest)?;
                self.entry = entry;
                Ok(())
            }
            "out" => {
                let results = self.passed(alloc, letters, rest)?;
                self.results = results;
                Ok(())
            }
            "slots" => self.stands(rest),
            "loop" => open(alloc, &mut self.parts, Block::Prologue(false)),
            "bare" => open(alloc, &mut self.parts, Block::Prologue(true)),
            "else" => close(alloc, &mut self.parts, Test::Always),
            "end" => close(alloc, &mut self.parts, Test::Always),
            "if" => {
                let test = self.row(letters).test(rest);
                open(alloc, &mut self.parts, Block::Then(test))
            }
            "test" => {
                let test = self.row(letters).test(rest);
                close(alloc, &mut self.parts, test)
            }
            _ => {
                let operation = self.row(letters).operation(word);
                add(&mut self.parts, Node::Do(operation))
            }
        }
    }
}

/// The body, where no block is open.
fn body_of(alloc: Global, parts: &mut Vec<Part>) -> Seq<Node> {
    match parts.pop() {
        Some(Part { open: _open, nodes }) => nodes,
        None => Seq::new(alloc),
    }
}

/// The function of these words.
pub fn function_of(alloc: Global, letters: &[u8], text: &str) -> Result<Read, AllocError> {
    let mut reading = Reading {
        parts: Vec::new(alloc),
        count: 0,
        entry: Seq::new(alloc),
        results: Seq::new(alloc),
        slots: Vec::new(alloc),
    };
    open(alloc, &mut reading.parts, Block::Whole)?;
    for word in text.split_whitespace() {
        reading.word(alloc, letters, word)?;
    }
    let body = body_of(alloc, &mut reading.parts);
    let Reading {
        parts: _parts,
        count: _,
        entry,
        results,
        slots,
    } = reading;
    Ok(Read {
        entry,
        body,
        results,
        slots,
    })
}
