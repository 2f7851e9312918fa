//! Laws of the runs of the whole language; there is no code here. What a variable holds is of the
//! kind that is declared of it. How deep calls may be makes no difference. The size of a value is
//! one: what evaluation takes, what typing finds, and what the judgement says.
#![tactic(auto)]

mod kind_laws;
mod laws;
mod size_laws;

pub use kind_laws::{
    bodies_keep_kinds, calls_keep_kinds, counters_keep_kinds, declarations_give_kinds,
    functions_keep_kinds, kinds_are_sorts, operations_keep_kinds, texts_declare_bodies,
    values_fit_their_sizes,
};
pub use laws::{
    calls_hold_whole_bodies, same_above_the_rank, the_depth_of_calls_does_not_matter,
    typed_programs_have_no_recursion,
};
pub use size_laws::{
    assignments_have_one_size, expressions_have_one_size, expressions_say_their_size,
    intrinsics_have_one_size, left_sides_have_one_size, rows_see_that_size,
    values_are_of_their_places,
};
