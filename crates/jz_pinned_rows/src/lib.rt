//! The rows of the table of flags, RAX and RDX that an assignment or a test has: carries as
//! results, products of two words, quotients, and choices and tests of bool variables.
#![tactic(auto)]

mod apart;
mod choosing;
mod dividing;
mod multiplying;
mod pairs;
mod parts;
mod results;
mod row;
mod setting;

pub use apart::is_apart;
pub use choosing::{FlagTest, flag_test};
pub use dividing::numbers_behind;
pub use multiplying::product_row;
pub use pairs::acts_in;
pub use parts::{Operands, can_encode_all, is_long, operands_of, words_of};
pub use results::{flag_result, no_flags, word_result};
pub use row::{Acts, Divided, PinnedRow};
pub use setting::pinned_row_of;
