//! The text of a file in the whole language: its typed program, its export functions by their names,
//! and the first limit that one of them passes.
#![tactic(auto)]

mod exports;
mod limits;
mod reading;
mod stage;
mod unread;

pub use exports::{function_at, is_exported, place_of};
pub use limits::{FunLimit, within_limits};
pub use reading::typed_program;
pub use stage::as_refused;
pub use unread::Unread;
