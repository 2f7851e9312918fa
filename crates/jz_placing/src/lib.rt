//! The law of placing: a body over variables, and its instructions where each variable has a place.
#![tactic(auto)]

mod laws;

pub use laws::{allocated_places_are_met, first_fit_is_a_placing, placing_keeps_runs};
