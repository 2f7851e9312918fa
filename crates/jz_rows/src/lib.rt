//! The row of the pattern table that a statement or a test has: its actions, and which of the
//! numbers that it leaks each of them shows.
#![tactic(auto)]

mod args;
mod assignments;
mod bringing;
mod comparing;
mod operators;
mod row;
mod settings;
mod targets;

pub use args::{is_free, is_imm, same_arg};
pub use assignments::{assignment_row, product_row};
pub use bringing::{Brought, NOTHING, bring, count, told};
pub use comparing::{Comparison, compared, shown_of};
pub use operators::{count_in, is_wide, mask_of};
pub use row::{Act, Row, Shown};
pub use settings::row_of;
pub use targets::{Target, byte_in, flag_in, place_of, word_in};
