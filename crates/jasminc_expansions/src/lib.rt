//! Export functions of a text within the limits, and their expansions.
#![tactic(auto)]

mod expanding;

pub use expanding::expanded_at;
