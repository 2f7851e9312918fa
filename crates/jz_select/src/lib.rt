//! Which row of the pattern table, or which intrinsic, a typed statement matches, and the
//! immediates of its operands.
#![tactic(auto)]

mod class;
mod comparing;
mod immediates;
mod look;
mod operand;
mod pattern;
mod places;
mod rows;
mod selecting;
mod shape;
mod shaping;

pub use immediates::immediate;
pub use look::gives_number;
pub use pattern::Pattern;
pub use selecting::{equal_trees, one_row, select, select_copy};
