//! Runs of the source: from the text of a file to the text of a run of one of its export functions,
//! or to the first reason why there is none.
#![tactic(auto)]

mod laws;
mod refused;
mod running;
mod stages;
mod telling;

pub use jasminc_source::{FunLimit, Unread};
pub use laws::typed_functions_can_be_met;
pub use refused::Refused;
pub use stages::interp_text;
pub use telling::Ran;
