//! Constant time of the export functions of a text: from the text of a file to a line for each of
//! them, or to the first reason why one of them is not known to be constant time.
#![tactic(auto)]

mod breaches;
mod functions;
mod laws;
mod refused;
mod stages;

pub use breaches::{FunBreach, write_breach};
pub use jasminc_source::{FunLimit, Unread};
pub use jz_ct::{Breach, Reason, Secret};
pub use laws::one_judgement;
pub use refused::Refused;
pub use stages::ct_text;
