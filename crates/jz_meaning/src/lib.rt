//! What programs mean: values, operators and stores.
#![tactic(auto)]

mod access;
mod evaluating;
mod laws;
mod left;
mod operators;
mod state;
mod store;
mod value;

pub use access::{Kind, cell, index, is_flag, kind_of, left_span, load, size_of, variable, write};
pub use evaluating::{evaluate, right_wanted, value_of};
pub use jz_runs::{Item, Leak, MemMap, Turn};
pub use laws::{
    a_leak_holds_a_cut_where_its_run_was_cut, arguments_are_assigned, inline_expressions,
    numbers_of_an_expression, one_outcome, same_with_as_many_used, same_with_more_turns,
    some_outcome,
};
pub use left::{gives_word, own_size};
pub use operators::{binary, cast, inverted_value, is_settled, negated_value, word_of};
pub use state::State;
pub use store::Store;
pub use value::{Stuck, Value, Why, defined, missing};
