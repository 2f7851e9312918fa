//! Bodies of operations over variables: what the placing of variables sees of them, and their
//! instructions where each variable has a place.
#![tactic(auto)]

mod allocation;
mod flow;
mod laws;
mod placed;
mod placing;
mod tree;

pub use allocation::places_of;
pub use flow::branching;
pub use laws::{
    leaks_hold_the_cuts, one_outcome, operations_do_the_same, same_with_more_turns, some_outcome,
    sorted_bodies_are_suited,
};
pub use placed::{PlacedNode, PlacedTest};
pub use placing::place;
pub use tree::{Ir, Node, Passed, Test};
