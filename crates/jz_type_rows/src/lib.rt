//! Rules of typing: arrays, indexes, annotations, the shape of export functions, and rows of the
//! pattern table.
#![tactic(auto)]

mod arrays;
mod bodies;
mod callee;
mod copies;
mod exports;
mod indexes;
mod matching;
mod pairs;
mod tables;
mod twice;

pub use bodies::{copied_in, indexed_in};
pub use callee::{Callee, Callees};
pub use copies::copied;
pub use exports::{annotated, misshapen};
pub use indexes::indexed;
pub use matching::unmatched;
