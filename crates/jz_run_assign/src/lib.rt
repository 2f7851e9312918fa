//! Assignments: the right side, and then the left sides from left to right, each written before the
//! next is evaluated. What goes into a call and comes out of it, the variables that the head of a
//! copied body unsets, and the bounds of a `for`.
#![tactic(auto)]

mod arrays;
mod assigning;
mod calling;
mod counting;
mod entering;
mod left;
mod operands;
mod pairs;
mod reading;
mod right;
mod variables;
mod wholes;

pub use assigning::{Assignment, assign};
pub use calling::{Call, enter, leave};
pub use counting::number_in;
pub use entering::unset_all;
pub use left::{held, left_sizes, write, write_all};
pub use operands::{truth_in, word_in};
pub use variables::{set, unset, value_of};
pub use wholes::{whole, whole_of};
