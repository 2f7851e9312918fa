//! Listings, read again.
#![tactic(auto)]

mod laws;
mod reading;
mod state;

pub use laws::{listings_have_no_bad_line, one_bad_line, one_listing};
pub use reading::read_listing;
