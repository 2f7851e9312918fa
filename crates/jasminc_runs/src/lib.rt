//! Runs of compiled functions of the whole language on items: from the bytes to the text of a run.
#![tactic(auto)]

mod calling;
mod running;
mod starting;
mod telling;

pub use calling::{is_short, run_function};
pub use jasminc_calls::Unfit;
pub use running::run_compiled;
pub use starting::{Input, loaded};
pub use telling::Ran;
