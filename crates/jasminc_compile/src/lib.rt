//! Compilation of the export functions of a text: from the text of a file to its compiled functions
//! and their listing, or to the first reason why one of them is not compiled.
#![tactic(auto)]

mod compiling;
mod functions;
mod laws;
mod outcome;
mod refused;
mod safety;
mod settling;
mod stages;

pub use functions::compile_functions;
pub use jasminc_source::{FunLimit, Unread};
pub use jz_asked::{Alarm, Target};
pub use jz_unplaced::Unplaced;
pub use laws::what_is_made_is_correct;
pub use outcome::Unmade;
pub use refused::Refused;
pub use safety::{SafeFun, safe_functions};
pub use stages::{Compilation, compile_text};
