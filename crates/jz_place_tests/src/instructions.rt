//! The instructions of a row, each behind a semicolon.

use crate::operations::CONDITIONS;
use jz_data::Seq;
use jz_disasm::disasm;
use jz_place::{PlacedNode, PlacedTest};
use std::alloc::{AllocError, Global};
use x64_encode::{encode, has_spelling};
use x64_insn::{Cond, Insn};

/// More parts than a row has.
const MOST_PARTS: u32 = 10_000;

/// What is still to be told, the first at the end.
#[derive(Drop)]
enum Left {
    Node(PlacedNode),
    Test(PlacedTest),
    Word(&'static str),
}

/// As it is disassembled, without its offset and its bytes.
fn add_insn(alloc: Global, text: &mut String, insn: Insn) -> Result<(), AllocError> {
    if !has_spelling(&insn) {
        return text.push_str(" (no spelling)");
    }
    let bytes = encode(&insn);
    let line = match disasm(alloc, bytes.as_slice()) {
        Ok(line) => line,
        Err(_) => return text.push_str(" (no line)"),
    };
    let line = std::str::from_utf8(line.as_slice()).unwrap_or("");
    let (_, rest) = line.split_once(' ').unwrap_or(("", ""));
    let (_, rest) = rest.split_once(' ').unwrap_or(("", ""));
    text.push(' ')?;
    text.push_str(rest.trim_end())
}

fn add_condition(text: &mut String, cond: Cond) -> Result<(), AllocError> {
    let (name, _) = CONDITIONS[cond as usize];
    text.push(' ')?;
    text.push_str(name)
}

fn add_test(alloc: Global, text: &mut String, test: PlacedTest) -> Result<(), AllocError> {
    match test {
        PlacedTest::Always => text.push_str(" true"),
        PlacedTest::If(None, cond) => add_condition(text, cond),
        PlacedTest::If(Some(insn), cond) => {
            add_insn(alloc, text, insn)?;
            add_condition(text, cond)
        }
    }
}

fn put_block(left: &mut Vec<Left>, nodes: Seq<PlacedNode>) -> Result<(), AllocError> {
    let mut nodes = nodes.into_vec();
    for _ in 0..nodes.len() {
        match nodes.pop() {
            Some(node) => left.push(Left::Node(node))?,
            None => {}
        }
    }
    Ok(())
}

fn put_branch(
    left: &mut Vec<Left>,
    test: PlacedTest,
    yes: Seq<PlacedNode>,
    no: Seq<PlacedNode>,
) -> Result<(), AllocError> {
    left.push(Left::Word("; end"))?;
    put_block(left, no)?;
    left.push(Left::Word("; else"))?;
    put_block(left, yes)?;
    left.push(Left::Test(test))?;
    left.push(Left::Word("; if"))?;
    Ok(())
}

fn put_loop(
    left: &mut Vec<Left>,
    bare: bool,
    prologue: Seq<PlacedNode>,
    test: PlacedTest,
    inner: Seq<PlacedNode>,
) -> Result<(), AllocError> {
    left.push(Left::Word("; end"))?;
    put_block(left, inner)?;
    left.push(Left::Test(test))?;
    left.push(Left::Word("; test"))?;
    put_block(left, prologue)?;
    if bare {
        left.push(Left::Word("; bare"))?;
    } else {
        left.push(Left::Word("; loop"))?;
    }
    Ok(())
}

fn add_part(
    alloc: Global,
    text: &mut String,
    left: &mut Vec<Left>,
    part: Left,
) -> Result<(), AllocError> {
    match part {
        Left::Word(word) => text.push_str(word),
        Left::Test(test) => add_test(alloc, text, test),
        Left::Node(node) => match node {
            PlacedNode::Do(insn) => {
                text.push(';')?;
                add_insn(alloc, text, insn)
            }
            PlacedNode::If(test, yes, no) => put_branch(left, test, yes, no),
            PlacedNode::While(bare, prologue, test, inner) => {
                put_loop(left, bare, prologue, test, inner)
            }
        },
    }
}

pub fn add_code(alloc: Global, text: &mut String, code: Seq<PlacedNode>) -> Result<(), AllocError> {
    let mut left = Vec::new(alloc);
    put_block(&mut left, code)?;
    for _ in 0..MOST_PARTS {
        match left.pop() {
            Some(part) => add_part(alloc, text, &mut left, part)?,
            None => return Ok(()),
        }
    }
    Ok(())
}
