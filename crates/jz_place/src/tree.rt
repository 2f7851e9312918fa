//! Operations over variables with branches and loops.

use jz_data::Seq;
use jz_ir::Kind;
use jz_operations::{Condition, Operation, Pinned};
use x64_insn::{Place, Reg};

/// `true`, which a loop alone asks; or a condition, behind an operation that sets flags or of the
/// flags that are there.
#[derive(Clone, Copy)]
pub enum Test {
    Always,
    If(Option<Operation>, Condition),
}

/// A part of a body.
#[cycle(node)]
#[derive(Drop)]
pub enum Node {
    Do(Operation),
    If(Test, Seq<Node>, Seq<Node>),
    /// Whether it is written without a body, what stands before the test, the test, and the body.
    While(bool, Seq<Node>, Test, Seq<Node>),
}

/// A parameter or a result, and its register.
#[derive(Clone, Copy)]
pub struct Passed {
    pub variable: Pinned,
    pub reg: Reg,
}

/// A function over variables: the parameters, the body and the results, the kind of each variable,
/// and the places that variables may have.
#[derive(Drop)]
pub struct Ir {
    pub entry: Seq<Passed>,
    pub body: Seq<Node>,
    pub results: Seq<Passed>,
    pub kinds: Seq<Kind>,
    pub in_use: Seq<Place>,
}
