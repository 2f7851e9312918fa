//! A place for each variable by first fit, or why one has none.
#![tactic(auto)]

mod evidence;
mod fit;
mod laws;
mod needs;
mod order;
mod placing;
mod seats;
mod tables;

pub use evidence::Holder;
pub use laws::{first_fit_is_a_placing, one_outcome};
pub use needs::Needed;
pub use placing::{NoPlace, Places, allocate};
