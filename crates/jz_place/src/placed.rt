//! Instructions with branches and loops.

use jz_data::Seq;
use x64_insn::{Cond, Insn};

/// `true`; or a condition of the flags, behind an instruction that sets them or as they are.
#[derive(Clone, Copy)]
pub enum PlacedTest {
    Always,
    If(Option<Insn>, Cond),
}

/// A part of a body.
#[cycle(placed)]
#[derive(Drop)]
pub enum PlacedNode {
    Do(Insn),
    If(PlacedTest, Seq<PlacedNode>, Seq<PlacedNode>),
    /// Whether it is written without a body, what stands before the test, the test, and the body.
    While(bool, Seq<PlacedNode>, PlacedTest, Seq<PlacedNode>),
}
