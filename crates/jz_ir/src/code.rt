//! Operations and variables. A variable is a number: its place in the order of declaration.

use jz_io::{Seq, Span};
use x64_insn::Place;

/// What a variable is: a word lives in a register, a flag in a flag.
#[derive(Clone, Copy)]
pub enum Kind {
    Word,
    Flag,
}

/// A variable that must be in a place, and where the text says so.
#[derive(Clone, Copy)]
pub struct Need {
    pub variable: u32,
    pub place: Place,
    pub span: Span,
}

/// An operation: the variables that it reads and writes, the places that it writes besides, and
/// what it needs.
#[derive(Drop)]
pub struct Op {
    pub span: Span,
    pub reads: Seq<u32>,
    pub writes: Seq<u32>,
    pub fixed: Seq<Place>,
    pub needs: Seq<Need>,
}

/// Operations one after another, the kind of each variable, and the places that variables may have.
#[derive(Drop)]
pub struct Code {
    pub ops: Seq<Op>,
    pub kinds: Seq<Kind>,
    pub in_use: Seq<Place>,
}

/// A part of code with branches and loops. A test is an operation; a loop without one is never
/// left.
#[cycle(node)]
#[derive(Drop)]
pub enum Node {
    Op(Op),
    If(Op, Seq<Node>, Seq<Node>),
    /// What stands before the test, the test, and the body.
    While(Seq<Node>, Option<Op>, Seq<Node>),
}
