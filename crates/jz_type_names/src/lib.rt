//! The places of a text, the names that a program declares and uses, and the parts of its
//! statements.
#![tactic(auto)]

mod bodies;
mod declarations;
mod exprs;
mod kinds;
mod layers;
mod order;
mod repeats;
mod tables;
mod unknowns;
mod wanted;

pub use bodies::statements;
pub use declarations::decls_of;
pub use exprs::{cells, length_of, names, span_of};
pub use kinds::{
    Declared, Kind, array_of, declaration, is_array, is_inline, is_inline_int, is_register_array,
    is_register_word, is_word, known, same_kind, same_size, same_storage, whole_array,
    written_length,
};
pub use layers::{
    called_by, cells_set, exprs_of, is_skip, read_by, set_by, whole_var, wholly_set_by,
};
pub use order::{earlier_of, is_before, sooner, unless};
pub use repeats::{repeated_at_top, repeated_in_fun, repeated_of};
pub use tables::{ByName, Functions, Places, Variables};
pub use unknowns::{above, unknown_in_constants, unknown_in_fun, unknown_of};
