//! The numbers of inline variables, as they are known where a statement stands, and the expressions,
//! conditions and assignments whose inline parts are their values.
#![tactic(auto)]

mod conditions;
mod expressions;
mod inline_vars;
mod known;
mod parts;
mod settings;

pub use conditions::{Test, is_never, loop_test, test_of};
pub use expressions::{
    Values, all_with_values, condition_with_values, lefts_with_values, number_of, with_values,
};
pub use inline_vars::InlineVars;
pub use jz_tree::{Failure, Seq, Span};
pub use known::{Changed, Known};
pub use settings::{inline_target, is_inline_number, is_set, new_number, stands_apart};
