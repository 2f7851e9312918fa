//! Why a variable of a function has no place, by the names of variables.
#![tactic(auto)]

mod naming;
mod numbers;
mod unplaced;

pub use naming::named;
pub use unplaced::{Holder, Named, Unplaced};
