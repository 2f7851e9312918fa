//! Code whose variables want places.

use jz_data::Seq;
use jz_ir::{Kind, Node};
use x64_insn::Place;

/// Code with branches and loops, with the entry before it and the return behind it, the kind of
/// each variable, and the places that variables may have.
#[derive(Drop)]
pub struct Branching {
    pub nodes: Seq<Node>,
    pub kinds: Seq<Kind>,
    pub in_use: Seq<Place>,
}
