//! Calls become copies of the bodies that they call, and the runs stay.
#![tactic(auto)]

mod expressions;
mod laws;
mod leaked;
mod names;

pub use expressions::{
    condition_in_copy, expr_in_copy, exprs_in_copy, lval_in_copy, lvals_in_copy,
};
pub use laws::{runs_stay, statements_are_the_body};
pub use leaked::{is_int, left_width, width};
pub use names::{NamesInCopy, Renamed, is_array};
