//! The listing of compiled functions.
#![tactic(auto)]

mod compiled;
mod laws;
mod lines;
mod transformers;

pub use compiled::{Arg, Compiled, Pre};
pub use laws::listings_tell_functions_apart;
pub use lines::{listing, write_ct};
