//! The limits of an expansion: what is met when a function is gone through in expanded order, and the
//! first of it that passes a limit. The code here asks one statement, or a part of one; it takes time
//! in proportion to the text of that part.
#![tactic(auto)]

mod calls;
mod known;
mod laws;
mod lefts;
mod limit;
mod looked;
mod looking;
mod operands;
mod sets;
mod statements;
mod terms;

pub use calls::{ask_argument, ask_result};
pub use jz_integers::the_number;
pub use known::Known;
pub use laws::{counts_of_loops, first_limits};
pub use lefts::{inline_target, is_int};
pub use limit::Limit;
pub use looked::sooner;
pub use sets::value_set;
pub use statements::{ask_assignment, ask_bound, ask_condition, ask_instruction};
