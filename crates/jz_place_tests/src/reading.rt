//! The code of a row.

use crate::names::{number_of, numbers_of, place_named};
use jz_data::Seq;
use jz_io::Span;
use jz_ir::{Need, Node, Op};
use std::alloc::{AllocError, Global};
use x64_insn::Place;

/// What a block is a part of.
#[derive(Drop)]
enum Block {
    Whole,
    Then(Op),
    Else(Op, Seq<Node>),
    Prologue,
    Body(Seq<Node>, Option<Op>),
}

/// A block that is not closed.
#[derive(Drop)]
struct Part {
    open: Block,
    nodes: Seq<Node>,
}

/// The blocks that are not closed, and how many operations there are.
#[derive(Drop)]
struct Reading {
    parts: Vec<Part>,
    count: u32,
}

fn places_of(alloc: Global, text: &str) -> Result<Seq<Place>, AllocError> {
    let mut places = Seq::new(alloc);
    for name in text.split(',') {
        if !name.is_empty() {
            places.push(place_named(name))?;
        }
    }
    Ok(places)
}

fn needs_of(
    alloc: Global,
    letters: &[u8],
    text: &str,
    span: Span,
) -> Result<Seq<Need>, AllocError> {
    let mut needs = Seq::new(alloc);
    for pair in text.split(',') {
        let (letter, name) = pair.split_once('=').unwrap_or(("", ""));
        for byte in letter.as_bytes() {
            needs.push(Need {
                variable: number_of(letters, *byte),
                place: place_named(name),
                span,
            })?;
        }
    }
    Ok(needs)
}

fn op_of(alloc: Global, letters: &[u8], text: &str, number: u32) -> Result<Op, AllocError> {
    let span = Span {
        line: number,
        col: 1,
    };
    let (rest, needs) = text.split_once('@').unwrap_or((text, ""));
    let (rest, fixed) = rest.split_once('!').unwrap_or((rest, ""));
    let (reads, writes) = rest.split_once('>').unwrap_or((rest, ""));
    Ok(Op {
        span,
        reads: numbers_of(alloc, letters, reads)?,
        writes: numbers_of(alloc, letters, writes)?,
        fixed: places_of(alloc, fixed)?,
        needs: needs_of(alloc, letters, needs, span)?,
    })
}

/// Adds a part of code to the block that was opened last.
fn add(parts: &mut Vec<Part>, node: Node) -> Result<(), AllocError> {
    match parts.pop() {
        None => Ok(()),
        Some(Part { open, mut nodes }) => {
            nodes.push(node)?;
            parts.push(Part { open, nodes })?;
            Ok(())
        }
    }
}

fn open(alloc: Global, parts: &mut Vec<Part>, open: Block) -> Result<(), AllocError> {
    let nodes = Seq::new(alloc);
    parts.push(Part { open, nodes })?;
    Ok(())
}

/// What is closed by `else` or `test` opens what follows; `end` makes a branch or a loop of it.
fn close(alloc: Global, parts: &mut Vec<Part>, test: Option<Op>) -> Result<(), AllocError> {
    match parts.pop() {
        None => Ok(()),
        Some(Part { open: kind, nodes }) => match kind {
            Block::Whole => {
                parts.push(Part {
                    open: Block::Whole,
                    nodes,
                })?;
                Ok(())
            }
            Block::Then(op) => open(alloc, parts, Block::Else(op, nodes)),
            Block::Prologue => open(alloc, parts, Block::Body(nodes, test)),
            Block::Else(op, yes) => add(parts, Node::If(op, yes, nodes)),
            Block::Body(prologue, op) => add(parts, Node::While(prologue, op, nodes)),
        },
    }
}

impl Reading {
    fn op(&mut self, alloc: Global, letters: &[u8], text: &str) -> Result<Op, AllocError> {
        self.count = self.count.saturating_add(1);
        op_of(alloc, letters, text, self.count)
    }

    fn word(&mut self, alloc: Global, letters: &[u8], word: &str) -> Result<(), AllocError> {
        let (kind, rest) = word.split_once(':').unwrap_or((word, ""));
        match kind {
            "loop" => open(alloc, &mut self.parts, Block::Prologue),
            "else" => close(alloc, &mut self.parts, None),
            "end" => close(alloc, &mut self.parts, None),
            "if" => {
                let op = self.op(alloc, letters, rest)?;
                open(alloc, &mut self.parts, Block::Then(op))
            }
            "test" => {
                if rest.is_empty() {
                    return close(alloc, &mut self.parts, None);
                }
                let op = self.op(alloc, letters, rest)?;
                close(alloc, &mut self.parts, Some(op))
            }
            _ => {
                let op = self.op(alloc, letters, kind)?;
                add(&mut self.parts, Node::Op(op))
            }
        }
    }
}

/// The code of these words.
pub fn code_of(alloc: Global, letters: &[u8], text: &str) -> Result<Seq<Node>, AllocError> {
    let mut reading = Reading {
        parts: Vec::new(alloc),
        count: 0,
    };
    open(alloc, &mut reading.parts, Block::Whole)?;
    for word in text.split_whitespace() {
        reading.word(alloc, letters, word)?;
    }
    match reading.parts.pop() {
        Some(Part { open: _, nodes }) => Ok(nodes),
        None => Ok(Seq::new(alloc)),
    }
}
