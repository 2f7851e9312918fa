//! The regions of a function as lines, with the bytes that a memory has there.
#![tactic(auto)]

mod regions;

pub use regions::write_regions;
