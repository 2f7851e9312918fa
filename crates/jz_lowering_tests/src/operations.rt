//! Operations by the names of their variables, with the numbers that they show.

use crate::operands::{bits, operand, variable};
use jz_change::{Number, Numbers, Step};
use jz_lowering::Lowered;
use jz_operations::{Action, Arg, Condition};
use jz_place::{Node, Test};
use jz_tree::{Seq, Size};
use std::alloc::{AllocError, Global};
use x64_insn::{Alu, Cond, One, Shift};

/// The names of variables and of stack variables, by their numbers.
#[derive(Drop)]
pub struct Names<'a> {
    pub variables: Vec<&'a str>,
    pub stacked: Vec<&'a str>,
}

fn alu(op: Alu) -> &'static str {
    match op {
        Alu::Add => "add",
        Alu::Or => "or",
        Alu::Adc => "adc",
        Alu::Sbb => "sbb",
        Alu::And => "and",
        Alu::Sub => "sub",
        Alu::Xor => "xor",
        Alu::Cmp => "cmp",
        Alu::Test => "test",
    }
}

fn one(op: One) -> &'static str {
    match op {
        One::Not => "not",
        One::Neg => "neg",
        One::Inc => "inc",
        One::Dec => "dec",
    }
}

fn shift(kind: Shift) -> &'static str {
    match kind {
        Shift::Rol => "rol",
        Shift::Ror => "ror",
        Shift::Shl => "shl",
        Shift::Shr => "shr",
        Shift::Sar => "sar",
    }
}

fn cond(cond: Cond) -> &'static str {
    match cond {
        Cond::O => "o",
        Cond::No => "no",
        Cond::B => "b",
        Cond::Ae => "ae",
        Cond::E => "e",
        Cond::Ne => "ne",
        Cond::Be => "be",
        Cond::A => "a",
        Cond::S => "s",
        Cond::Ns => "ns",
        Cond::P => "p",
        Cond::Np => "np",
        Cond::L => "l",
        Cond::Ge => "ge",
        Cond::Le => "le",
        Cond::G => "g",
    }
}

fn condition(found: Condition) -> &'static str {
    match found {
        Condition::Cc(found) => cond(found),
        Condition::Flag(_, _) => "?",
    }
}

fn two(alloc: Global, names: &Names<'_>, to: Arg, from: Arg) -> Result<String, AllocError> {
    let to = operand(alloc, names, to)?;
    let from = operand(alloc, names, from)?;
    format!(in alloc; "{}, {}", to.as_str(), from.as_str())
}

fn word(signed: bool, from: Size) -> &'static str {
    if !signed {
        return "movzx";
    }
    match from {
        Size::S8 => "movsx",
        Size::S16 => "movsx",
        Size::S32 => "movsxd",
        Size::S64 => "movsxd",
    }
}

/// An extension; from 32 bits by zeros it is a move of 32 bits.
fn extension(
    alloc: Global,
    names: &Names<'_>,
    signed: bool,
    to: Size,
    from: Size,
    operands: (u32, Arg),
) -> Result<String, AllocError> {
    let (var, rm) = operands;
    let both = two(alloc, names, Arg::Var(var), rm)?;
    let size = bits(from);
    if !signed && size == 32 {
        return format!(in alloc; "mov.32 {}", both.as_str());
    }
    let name = word(signed, from);
    let wide = bits(to);
    format!(in alloc; "{name}.{wide} {}:{size}", both.as_str())
}

fn by_operand(
    alloc: Global,
    names: &Names<'_>,
    name: &str,
    size: Size,
    rm: Arg,
) -> Result<String, AllocError> {
    let rm = operand(alloc, names, rm)?;
    let size = bits(size);
    format!(in alloc; "{name}.{size} {}", rm.as_str())
}

fn by_two(
    alloc: Global,
    names: &Names<'_>,
    name: &str,
    size: Size,
    to: Arg,
    from: Arg,
) -> Result<String, AllocError> {
    let both = two(alloc, names, to, from)?;
    let size = bits(size);
    format!(in alloc; "{name}.{size} {}", both.as_str())
}

fn action(alloc: Global, names: &Names<'_>, found: Action) -> Result<String, AllocError> {
    match found {
        Action::Alu(op, size, to, from, _) => by_two(alloc, names, alu(op), size, to, from),
        Action::Mov(size, to, from) => by_two(alloc, names, "mov", size, to, from),
        Action::Extend {
            signed,
            to,
            from,
            var,
            rm,
        } => extension(alloc, names, signed, to, from, (var, rm)),
        Action::One(op, size, rm) => by_operand(alloc, names, one(op), size, rm),
        Action::Imul(size, var, rm) => by_two(alloc, names, "imul", size, Arg::Var(var), rm),
        Action::ImulBy(size, var, rm, number) => {
            let both = by_two(alloc, names, "imul", size, Arg::Var(var), rm)?;
            format!(in alloc; "{}, {number}", both.as_str())
        }
        Action::Shift(kind, size, rm, places) => {
            let shifted = by_operand(alloc, names, shift(kind), size, rm)?;
            format!(in alloc; "{}, {places}", shifted.as_str())
        }
        Action::ShiftBy(kind, size, rm, _) => {
            let shifted = by_operand(alloc, names, shift(kind), size, rm)?;
            format!(in alloc; "{}, cl", shifted.as_str())
        }
        Action::Cmov(found, size, var, rm) => {
            let both = two(alloc, names, Arg::Var(var), rm)?;
            let name = condition(found);
            let size = bits(size);
            format!(in alloc; "cmov{name}.{size} {}", both.as_str())
        }
        Action::Lea(var, _) => String::from_str(alloc, variable(names, var)),
        Action::Wide(_, _, _, _, _) => String::from_str(alloc, "?"),
        Action::Bswap(_, var) => String::from_str(alloc, variable(names, var)),
        Action::Sign(_, _, _) => String::from_str(alloc, "?"),
        Action::Set(_, _) => String::from_str(alloc, "?"),
    }
}

fn number(alloc: Global, found: Number) -> Result<String, AllocError> {
    match found {
        Number::Fixed(number) => format!(in alloc; "{number}"),
        Number::Nth(place) => format!(in alloc; "${place}"),
    }
}

fn item(alloc: Global, numbers: &Numbers) -> Result<String, AllocError> {
    let mut text = String::new(alloc);
    match numbers {
        Numbers::Same => text.push_str("=")?,
        Numbers::These(list) => {
            for (i, one) in list.as_slice().iter().enumerate() {
                if i > 0 {
                    text.push_str(" ")?;
                }
                text.push_str(number(alloc, *one)?.as_str())?;
            }
        }
    }
    format!(in alloc; "<{}>", text.as_str())
}

fn asked(
    alloc: Global,
    names: &Names<'_>,
    test: Test,
    numbers: &Numbers,
) -> Result<String, AllocError> {
    match test {
        Test::Always => String::from_str(alloc, "always"),
        Test::If(None, _) => String::from_str(alloc, "?"),
        Test::If(Some(compare), found) => {
            let compare = action(alloc, names, compare.action)?;
            let shown = item(alloc, numbers)?;
            let name = condition(found);
            format!(in alloc; "{} {} j{name}", compare.as_str(), shown.as_str())
        }
    }
}

/// A part of a body: an operation with its item, or the test of a branch or of a loop.
fn shown_node(
    alloc: Global,
    names: &Names<'_>,
    node: &Node,
    numbers: &Numbers,
) -> Result<String, AllocError> {
    match node {
        Node::Do(operation) => {
            let text = action(alloc, names, operation.action)?;
            let shown = item(alloc, numbers)?;
            format!(in alloc; "{} {}", text.as_str(), shown.as_str())
        }
        Node::If(test, _, _) => asked(alloc, names, *test, numbers),
        Node::While(_, _, test, _) => asked(alloc, names, *test, numbers),
    }
}

fn shown_items(
    alloc: Global,
    names: &Names<'_>,
    nodes: &[Node],
    items: &[Numbers],
) -> Result<String, AllocError> {
    let mut text = String::new(alloc);
    for (node, numbers) in nodes.iter().zip(items) {
        if !text.is_empty() {
            text.push_str(" ")?;
        }
        text.push_str(shown_node(alloc, names, node, numbers)?.as_str())?;
    }
    Ok(text)
}

/// What a statement has become, of which there is one step.
pub fn shown_nodes(alloc: Global, names: &Names<'_>, made: &Lowered) -> Result<String, AllocError> {
    match made.nodes.as_slice() {
        [node] => match made.steps.as_slice() {
            [
                Step::If {
                    before: _,
                    test,
                    then_part: _,
                    else_part: _,
                },
            ] => shown_node(alloc, names, node, test),
            [
                Step::While {
                    prologue: _,
                    before: _,
                    test,
                    body: _,
                },
            ] => shown_node(alloc, names, node, test),
            [Step::Ops(items)] => {
                shown_items(alloc, names, made.nodes.as_slice(), items.as_slice())
            }
            _ => String::from_str(alloc, "no step"),
        },
        _ => match made.steps.as_slice() {
            [Step::Ops(items)] => {
                shown_items(alloc, names, made.nodes.as_slice(), items.as_slice())
            }
            _ => String::from_str(alloc, "no step"),
        },
    }
}

/// The parts of a body: operations, branches and loops, each with what stands in it.
#[cycle(show)]
pub fn shown_body(
    alloc: Global,
    names: &Names<'_>,
    nodes: &Seq<Node>,
) -> Result<String, AllocError> {
    let mut text = String::new(alloc);
    for node in nodes.as_slice() {
        if !text.is_empty() {
            text.push_str(" ")?;
        }
        text.push_str(shown_part(alloc, names, node)?.as_str())?;
    }
    Ok(text)
}

#[cycle(show)]
fn shown_part(alloc: Global, names: &Names<'_>, node: &Node) -> Result<String, AllocError> {
    match node {
        Node::Do(operation) => action(alloc, names, operation.action),
        Node::If(_, holds, other) => {
            let holds = shown_body(alloc, names, holds)?;
            let other = shown_body(alloc, names, other)?;
            format!(in alloc; "if{{{}}}{{{}}}", holds.as_str(), other.as_str())
        }
        Node::While(bare, prologue, _, turn) => {
            let before = shown_body(alloc, names, prologue)?;
            let turn = shown_body(alloc, names, turn)?;
            let word = if *bare { "until" } else { "while" };
            format!(in alloc; "{word}{{{}}}{{{}}}", before.as_str(), turn.as_str())
        }
    }
}
