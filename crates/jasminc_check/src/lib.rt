//! Safety of the export functions of a text: from the text of a file to a line for each of them, or
//! to the first reason why one of them is not known to be safe.
#![tactic(auto)]

mod alarms;
mod functions;
mod laws;
mod refused;
mod stages;

pub use alarms::write_alarm;
pub use jasminc_expansions::expanded_at;
pub use jasminc_source::{FunLimit, Unread};
pub use jz_asked::{Alarm, Target};
pub use laws::one_judgement;
pub use refused::Refused;
pub use stages::check_text;
